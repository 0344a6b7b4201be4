// Openings, rounds and previews at a slot of a table in bytes (document 02, R-5 and R-6): reads each case and prints the answer to it.
#![tactic(auto)]

mod case;
mod input;
mod print;

// A proved loop has to end: no more cases are read.
const MOST_CASES: u64 = 65536;

fn main(rt: HostRuntime) {
    let mut space = [0u8; 65536];
    let mut table = [0u8; 65536];
    let mut input = rt.reader();
    for _ in 0..MOST_CASES {
        if !case::run(&rt, &mut input, &mut space, &mut table) {
            break;
        }
    }
}
