// One case. First three numbers: what is asked, how long the start of its line is, and how long this and the policy are together.
// Then these two, and the numbers that the question takes.
use crate::{input, print};
use reading::{number, read_full};
use session::{Move, Session};
use std::io::Read;

// Reads a case and prints its line; false if there is none left, or no room for its policy.
pub(crate) fn run(rt: &impl Print, from: &mut impl Read, space: &mut [u8]) -> bool {
    let asked = number(from);
    if asked == 0 {
        return false;
    }
    let start = usize::from(number(from));
    let bytes = usize::from(number(from));
    if bytes > space.len() {
        return false;
    }
    read_full(from, &mut space[..bytes]);
    line(rt, from, asked, start, &space[..bytes]);
    true
}

// The line of the policy that comes after the start.
fn line(rt: &impl Print, from: &mut impl Read, asked: u16, start: usize, bytes: &[u8]) {
    if start <= bytes.len() {
        let _ = rt.write_all(&bytes[..start]);
        answer(rt, from, asked, &bytes[start..]);
        let _ = println!(rt; "");
    }
}

// What is asked, as a case has it: a number that is read and matched here alone.
fn answer(rt: &impl Print, from: &mut impl Read, asked: u16, policy: &[u8]) {
    match asked {
        1 => print::checked(rt, policy::check(policy)),
        2 => print::opened(rt, Session::open(number(from))),
        3 => round(rt, from, policy),
        _ => list(rt, from, policy),
    }
}

// A round of a session, in which credentials are shown.
fn round(rt: &impl Print, from: &mut impl Read, policy: &[u8]) {
    let session = input::session(from);
    let shows = number(from);
    print::outcome(rt, session.round(policy, Move { shows }));
}

// A list of at most four rounds: the request, how many rounds, and what is shown in each.
fn list(rt: &impl Print, from: &mut impl Read, policy: &[u8]) {
    let request = number(from);
    let rounds = usize::from(number(from));
    let shown = [number(from), number(from), number(from), number(from)];
    if rounds <= 4 {
        print::replayed(rt, replay::replay(policy, request, &shown[..rounds]));
    }
}
