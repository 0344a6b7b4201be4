// A case of the station program (document 02, R-5 and R-6).
use crate::print;
use station_lines::step::{RECORD_BYTES, record};

// Takes the input a record at a time, as that program does; an incomplete one at the end counts for nothing.
pub(crate) fn run(rt: &impl Print, policy: &[u8], input: &[u8]) {
    let mut slots = station_table::empty();
    for bytes in input.chunks_exact(RECORD_BYTES) {
        let [operation, slot, owner, low, high] = *bytes else {
            return;
        };
        let step = record(slots, policy, [operation, slot, owner, low, high]);
        print::line(rt, &step.line);
        slots = step.slots;
    }
}
