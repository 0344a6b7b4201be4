// One case. First which program's it is, one byte, and how long the policy and the input are, two bytes each, little-endian. Then these two.
use crate::{bench, print, station};
use std::io::Read;

const HEAD_BYTES: usize = 5;

// Bytes and no enum, which would be made and matched in one place.
const BENCH: u8 = 1;

const STATION: u8 = 2;

// Reads a case and prints its lines; false if no whole one is left, or there is no room for it.
pub(crate) fn run(rt: &impl Print, from: &mut impl Read, number: u64, space: &mut [u8]) -> bool {
    let mut head = [0u8; HEAD_BYTES];
    if reading::read_full(from, &mut head) != HEAD_BYTES {
        return false;
    }
    let [program, policy_low, policy_high, input_low, input_high] = head;
    let policy = usize::from(u16::from_le_bytes([policy_low, policy_high]));
    let end = policy + usize::from(u16::from_le_bytes([input_low, input_high]));
    if end > space.len() {
        return false;
    }
    if reading::read_full(from, &mut space[0..end]) != end {
        return false;
    }
    play(rt, number, program, &space[0..policy], &space[policy..end])
}

// Prints the lines of a case; false if it is neither program's.
fn play(rt: &impl Print, number: u64, program: u8, policy: &[u8], input: &[u8]) -> bool {
    match program {
        BENCH => {
            print::case(rt, number);
            bench::run(rt, policy, input);
            true
        }
        STATION => {
            print::case(rt, number);
            station::run(rt, policy, input);
            true
        }
        _ => false,
    }
}
