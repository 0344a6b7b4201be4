// The station program (document 02, R-5 and R-6): 64 slots, and openings, rounds and previews at them from standard input. It reads and writes; what it prints is worked
// out by `station_lines`.
#![tactic(auto)]

use station_lines::step::{RECORD_BYTES, record};
use std::io::Read;

fn main(rt: HostRuntime) {
    let mut space = files::room();
    let bytes = files::policy(&rt, &mut space);
    run(&rt, &mut rt.reader(), &space[..bytes]);
}

// Prints what each record prints. Ends with the input, or where a line cannot be written; a proved loop has to end, and nothing says that the input
// does: no run has so many records.
fn run(rt: &impl Print, input: &mut impl Read, policy: &[u8]) {
    let mut slots = station_table::empty();
    for _ in 0..u64::MAX {
        let mut bytes = [0u8; RECORD_BYTES];
        if reading::read_full(input, &mut bytes) != RECORD_BYTES {
            return;
        }
        let step = record(slots, policy, bytes);
        if rt.write_all(step.line.as_bytes()).is_err() {
            return;
        }
        slots = step.slots;
    }
}
