// What is printed.
use log_comparison::compare::Refusal;

// A line: a word and the name of a file, whose bytes may be no text.
pub(crate) fn named(rt: &impl Print, word: &str, name: &[u8]) {
    let _ = print!(rt; "{word}");
    let _ = rt.write_all(name);
    let _ = println!(rt; "");
}

// The line of a comparison.
pub(crate) fn compared(rt: &impl Print, answer: Result<Option<usize>, Refusal>) {
    let _ = match answer {
        Ok(None) => println!(rt; "agree"),
        Ok(Some(record)) => println!(rt; "part {record}"),
        Err(refusal) => println!(rt; "refused {}", refusal.number()),
    };
}
