// "all stable models of small random policies against another solver": prints the sets of each vector.
#![tactic(auto)]

mod vector;

// A proved loop has to end: no more vectors are read.
const MOST_VECTORS: u64 = 65536;

fn main(rt: HostRuntime) {
    let mut input = rt.reader();
    for number in 0..MOST_VECTORS {
        if !vector::run(&rt, &mut input, number) {
            break;
        }
    }
}
