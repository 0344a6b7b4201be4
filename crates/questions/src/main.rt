// The first round under small random policies with weights, against another solver: prints the answer to each.
#![tactic(auto)]

mod vector;

// A proved loop has to end: no more vectors are read.
const MOST_VECTORS: u64 = 65536;

fn main(rt: HostRuntime) {
    let mut space = [0u8; 4096];
    let mut input = rt.reader();
    for number in 0..MOST_VECTORS {
        if !vector::run(&rt, &mut input, number, &mut space) {
            break;
        }
    }
}
