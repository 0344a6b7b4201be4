// What is printed. The replies are the numbers of the C interface, so these are matched.

pub(crate) fn text(rt: &impl Print, bytes: &[u8]) {
    let _ = rt.write_all(bytes);
}

// The reply to an opening.
pub(crate) fn opened(rt: &impl Print, reply: u32) {
    match reply {
        0 => text(rt, b"opened"),
        _ => refused(rt, reply),
    }
}

// The reply to a round or a preview.
pub(crate) fn round(rt: &impl Print, reply: u32) {
    match reply {
        0x100 => text(rt, b"grant"),
        0x200 => text(rt, b"deny"),
        0x300 => text(rt, b"ask"),
        _ => refused(rt, reply),
    }
}

// A refusal's number; one of the policy's has a record's number too.
fn refused(rt: &impl Print, reply: u32) {
    let number = reply % 256;
    let record = reply / 256;
    let _ = match number {
        0..=6 | 12 | 13 => print!(rt; "refused {number} at {record}"),
        _ => print!(rt; "refused {number}"),
    };
}

// A blank, and two hexadecimal digits for each byte of a table or a preview.
pub(crate) fn bytes(rt: &impl Print, shown: &[u8]) {
    let _ = print!(rt; " ");
    for byte in shown {
        let _ = print!(rt; "{byte:02x}");
    }
}
