// Pairs of logs (document 02, R-1): reads each pair and prints the answer to it.
#![tactic(auto)]

mod case;
mod print;

// A proved loop has to end: no more cases are read.
const MOST_CASES: u64 = 65536;

fn main(rt: HostRuntime) {
    let mut space = [0u8; 65536];
    let mut input = rt.reader();
    for _ in 0..MOST_CASES {
        if !case::run(&rt, &mut input, &mut space) {
            break;
        }
    }
}
