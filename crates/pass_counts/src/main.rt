// Counts of passes (document 02, R-3: "It carries its count of passes"), of chosen cases and of random policies: prints a line for each.
#![tactic(auto)]

mod access;
mod case;
mod disclosure;
mod start;
mod together;

// A proved loop has to end: no more cases are read.
const MOST_CASES: u64 = 65536;

fn main(rt: HostRuntime) {
    let mut space = [0u8; 4096];
    let mut input = rt.reader();
    for _ in 0..MOST_CASES {
        if !case::run(&rt, &mut input, &mut space) {
            break;
        }
    }
}
