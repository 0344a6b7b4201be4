// What is printed.
use lines::line::Line;

fn text(rt: &impl Print, bytes: &[u8]) {
    let _ = rt.write_all(bytes);
}

// The line before those of a case.
pub(crate) fn case(rt: &impl Print, number: u64) {
    text(rt, b"case ");
    let _ = rt.print(number);
    text(rt, b"\n");
}

// A program's line.
pub(crate) fn line(rt: &impl Print, line: &Line) {
    text(rt, line.as_bytes());
}
