// The bench program (document 01, "The bench program"). It reads and writes; what it prints is worked out by `console` and `lines`.
#![tactic(auto)]

use console::reader::Reader;
use std::io::Read;

fn main(rt: HostRuntime) {
    let mut space = files::room();
    let bytes = files::policy(&rt, &mut space);
    run(&rt, &mut rt.reader(), &space[..bytes]);
}

// Prints what each byte prints. Ends with the output, with the input, or where a line cannot be written; a proved loop has to end, and nothing says
// that the input does: no run has so many bytes.
fn run(rt: &impl Print, input: &mut impl Read, policy: &[u8]) {
    let mut reader = Reader::begin();
    for _ in 0..u64::MAX {
        let Some(step) = console_input::next(input, policy, reader) else {
            return;
        };
        if rt
            .write_all(lines::of_event(step.event).as_bytes())
            .is_err()
        {
            return;
        }
        reader = step.reader;
    }
}
