// One case. First three numbers: how long the start of its line is, how long this and the first log are together, and how long all is
// with the second log. Then these three.
use crate::print;
use log_comparison::compare::compare;
use reading::{number, read_full};
use std::io::Read;

// Reads a case and prints its line; false if there is none left, or no room for it.
pub(crate) fn run(rt: &impl Print, from: &mut impl Read, space: &mut [u8]) -> bool {
    let start = usize::from(number(from));
    if start == 0 {
        return false;
    }
    let first = usize::from(number(from));
    let bytes = usize::from(number(from));
    if bytes > space.len() {
        return false;
    }
    read_full(from, &mut space[..bytes]);
    line(rt, start, first, &space[..bytes]);
    true
}

// The line of the two logs that come after the start.
fn line(rt: &impl Print, start: usize, first: usize, bytes: &[u8]) {
    if start <= first && first <= bytes.len() {
        print::text(rt, &bytes[..start]);
        print::compared(rt, compare(&bytes[start..first], &bytes[first..]));
    }
}
