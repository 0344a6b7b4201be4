// A case of the bench program (document 01, "The bench program").
use crate::print;
use console::reader::Reader;

// Takes the input a byte at a time, as that program does, until nothing more is printed.
pub(crate) fn run(rt: &impl Print, policy: &[u8], input: &[u8]) {
    let mut reader = Reader::begin();
    for byte in input {
        if reader.ended() {
            return;
        }
        let step = reader.next(policy, *byte);
        print::line(rt, &lines::of_event(step.event));
        reader = step.reader;
    }
}
