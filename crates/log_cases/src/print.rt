// What is printed.
use log_comparison::compare::Refusal;

pub(crate) fn text(rt: &impl Print, bytes: &[u8]) {
    let _ = rt.write_all(bytes);
}

// The line of the answer to a pair of logs. compare_logs has the same three: a library for one match would be no plainer.
pub(crate) fn compared(rt: &impl Print, answer: Result<Option<usize>, Refusal>) {
    let _ = match answer {
        Ok(None) => println!(rt; "agree"),
        Ok(Some(record)) => println!(rt; "part {record}"),
        Err(refusal) => println!(rt; "refused {}", refusal.number()),
    };
}
