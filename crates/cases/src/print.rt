// What is printed.
use policy::refusal::Refusal as PolicyRefusal;
use replay::Replayed;
use session::answer::Ending;
use session::refusal::Refusal;
use session::{Outcome, Phase, Session, Verdict};
use std::fmt;

// A refusal's number, and the record's if it is the policy's.
#[derive(Drop)]
struct Refused(Refusal);

impl fmt::Display for Refused {
    fn fmt<W: fmt::Write>(&self, f: &mut fmt::Formatter<W>) -> fmt::Result {
        match self.0 {
            Refusal::Policy(refusal) => {
                write!(f, "refused {} at {}", refusal.number(), refusal.record())
            }
            refusal => write!(f, "refused {}", refusal.number()),
        }
    }
}

// The fields of a session.
#[derive(Drop)]
struct Fields(Session);

impl fmt::Display for Fields {
    fn fmt<W: fmt::Write>(&self, f: &mut fmt::Formatter<W>) -> fmt::Result {
        let session = self.0;
        write!(
            f,
            "request {} shown {:04x} ",
            session.request, session.shown
        )?;
        write!(
            f,
            "declined {:04x} count {} ",
            session.declined, session.count
        )?;
        match session.phase {
            Phase::Fresh => write!(f, "fresh"),
            Phase::Waiting(question) => write!(f, "waiting {:04x}", question.asks),
            Phase::Closed(Verdict::Granted) => write!(f, "closed granted"),
            Phase::Closed(Verdict::Denied) => write!(f, "closed denied"),
        }
    }
}

// The answer of the policy's test.
pub(crate) fn checked(rt: &impl Print, answer: Result<(), PolicyRefusal>) {
    let _ = match answer {
        Ok(()) => print!(rt; "accepted"),
        Err(refusal) => print!(rt; "{}", Refused(refusal.into())),
    };
}

// The answer of opening.
pub(crate) fn opened(rt: &impl Print, answer: Result<Session, Refusal>) {
    let _ = match answer {
        Ok(fresh) => print!(rt; "{}", Fields(fresh)),
        Err(refusal) => print!(rt; "{}", Refused(refusal)),
    };
}

// What a list of rounds comes to.
pub(crate) fn replayed(rt: &impl Print, state: Replayed) {
    match state {
        Replayed::Unopened(refusal) => opened(rt, Err(refusal)),
        Replayed::Unplayed(fresh) => opened(rt, Ok(fresh)),
        Replayed::Played(last) => outcome(rt, last),
    }
}

// A round's answer and the next session.
pub(crate) fn outcome(rt: &impl Print, outcome: Outcome) {
    let _ = match outcome.answer {
        Ok(Ending::Grant) => print!(rt; "grant"),
        Ok(Ending::Deny) => print!(rt; "deny"),
        Ok(Ending::Ask(question)) => print!(rt; "ask {:04x}", question.asks),
        Err(refusal) => print!(rt; "{}", Refused(refusal)),
    };
    let _ = print!(rt; "; {}", Fields(outcome.session));
}
