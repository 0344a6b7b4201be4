// The session of a case: six numbers.
use question::Question;
use reading::number;
use session::{Phase, Session, Verdict};
use std::io::Read;

// A session, sound or not: request, shown, declined, count, phase and question.
pub(crate) fn session(from: &mut impl Read) -> Session {
    Session {
        request: number(from),
        shown: number(from),
        declined: number(from),
        count: (number(from) % 256) as u8,
        phase: phase(number(from), number(from)),
    }
}

fn phase(phase: u16, question: u16) -> Phase {
    match phase {
        0 => Phase::Fresh,
        1 => Phase::Waiting(Question { asks: question }),
        2 => Phase::Closed(Verdict::Granted),
        _ => Phase::Closed(Verdict::Denied),
    }
}
