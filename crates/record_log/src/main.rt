// The recording program (document 02, R-1). It reads what the bench program reads and writes a log where that one prints; a policy or request that
// is refused has no record, and its line goes to standard error.
#![tactic(auto)]

use console::event::Event;
use console::reader::Reader;
use std::io::Read;

fn main(rt: HostRuntime) {
    let mut space = files::room();
    let bytes = files::policy(&rt, &mut space);
    run(&rt, &rt.stderr(), &mut rt.reader(), &space[..bytes]);
}

// Writes what each byte tells. Ends with the output, with the input, or where something cannot be written; a proved loop has to end, and nothing says
// that the input does: no run has so many bytes.
fn run(output: &impl Print, errors: &impl Print, input: &mut impl Read, policy: &[u8]) {
    let mut reader = Reader::begin();
    for _ in 0..u64::MAX {
        let Some(step) = console_input::next(input, policy, reader) else {
            return;
        };
        if !write(output, errors, step.event) {
            return;
        }
        reader = step.reader;
    }
}

// Whether the event's record and notice are written.
fn write(output: &impl Print, errors: &impl Print, event: Event) -> bool {
    if let Some(bytes) = recording::record(event) {
        if output.write_all(&bytes).is_err() {
            return false;
        }
    }
    errors
        .write_all(recording::notice(event).as_bytes())
        .is_ok()
}
