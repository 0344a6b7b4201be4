// One vector: the request, what is shown and the length of the policy, and then the policy.
use reading::{number, read_full};
use session::answer::{Answer, Ending};
use session::refusal::Refusal;
use session::{Move, Session};
use std::io::Read;

// Reads a vector and prints its line; false if there is none left, or no room for its policy.
pub(crate) fn run(rt: &impl Print, from: &mut impl Read, place: u64, space: &mut [u8]) -> bool {
    let request = number(from);
    if request == 0 {
        return false;
    }
    let shows = number(from);
    let bytes = usize::from(number(from));
    if bytes > space.len() {
        return false;
    }
    read_full(from, &mut space[..bytes]);
    let _ = print!(rt; "question {place} request {request} shown {shows:04x}");
    answered(rt, first_round(&space[..bytes], request, shows));
    true
}

// Opens a session and plays a round.
fn first_round(policy: &[u8], request: u16, shows: u16) -> Answer {
    Session::open(request)?.round(policy, Move { shows }).answer
}

// The rest of the line: a refusal comes with the record number if it is the policy's.
fn answered(rt: &impl Print, answer: Answer) {
    let _ = match answer {
        Ok(Ending::Grant) => println!(rt; " grant"),
        Ok(Ending::Deny) => println!(rt; " deny"),
        Ok(Ending::Ask(question)) => println!(rt; " ask {:04x}", question.asks),
        Err(Refusal::Policy(refusal)) => {
            println!(rt; " refused {} at {}", refusal.number(), refusal.record())
        }
        Err(refusal) => println!(rt; " refused {}", refusal.number()),
    };
}
