// A conformance pack: reads each case and prints what the bench program or the station program prints there.
#![tactic(auto)]

mod bench;
mod case;
mod print;
mod station;

// A proved loop has to end: no more cases are read.
const MOST_CASES: u64 = 65536;

fn main(rt: HostRuntime) {
    let mut space = [0u8; 65536];
    let mut input = rt.reader();
    for number in 1..=MOST_CASES {
        if !case::run(&rt, &mut input, number, &mut space) {
            return;
        }
    }
}
