// Sessions: opening and rounds (document 01, "Sessions").
#![tactic(auto)]

ghost use Rattle.std.specs.Prelude.{◌≡◌};
ghost use Rattle.rounds.specs.Rounds.{opening, round};
ghost use Rattle.rounds.specs.Sessions.{is_closed, question};
ghost use Rattle.question.specs.Types.{question_of};
ghost use Rattle.demands.specs.Promises.{OpeningMeets, RoundMeets};
ghost use Rattle.session.specs.Types.{move_of, opened_of, outcome_of, outcome_or, phase_of, session_of};

use accepted::accepted_round;
use answer::Answer;
use policy::examine;
use question::Question;
use refusal::Refusal;
use sound::is_service;
use tests::test;

mod accepted;
pub mod answer;
mod ending;
pub mod refusal;
mod sound;
mod tests;

// How a session ended.
#[derive(Clone, Copy)]
pub enum Verdict {
    Granted,
    Denied,
}

// Where a session stands.
#[derive(Clone, Copy)]
pub enum Phase {
    // No round yet.
    Fresh,
    Waiting(Question),
    Closed(Verdict),
}

impl Phase {
    // The session has ended.
    pub fn is_closed(self) -> bool
        ensures { result ≡ is_closed (phase_of self) }
    {
        matches!(self, Phase::Closed(_))
    }

    // What is asked: nothing unless waiting.
    pub(crate) fn question(self) -> Question
        ensures { question_of result ≡ question (phase_of self) }
    {
        match self {
            Phase::Waiting(question) => question,
            _ => Question { asks: 0 },
        }
    }
}

// A member's request, what was shown and declined so far, and how many rounds there were.
#[derive(Clone, Copy)]
pub struct Session {
    pub request: u16,
    pub shown: u16,
    pub declined: u16,
    pub count: u8,
    pub phase: Phase,
}

// What a round takes beside the policy and the session: the credentials shown.
#[derive(Clone, Copy)]
pub struct Move {
    pub shows: u16,
}

// A round's answer and the next session.
#[derive(Clone, Copy)]
pub struct Outcome {
    pub answer: Answer,
    pub session: Session,
}

impl Session {
    // A fresh session for a request, or the refusal and no session.
    pub fn open(request: u16) -> Result<Session, Refusal>
        ensures answer { opened_of result ≡ opening request }
        ensures meaning { OpeningMeets request (opened_of result) }
    {
        if !is_service(request) {
            return Err(Refusal::Request);
        }
        Ok(Session {
            request,
            shown: 0,
            declined: 0,
            count: 0,
            phase: Phase::Fresh,
        })
    }

    // A round: its answer and the next session, which is this one where the round is refused.
    pub fn round(self, policy: &[u8], taken: Move) -> Outcome
        ensures answer { outcome_of result ≡ round policy.now (session_of self) (move_of taken) }
        ensures meaning { RoundMeets policy.now (session_of self) (move_of taken) (outcome_of result) }
        ensures unchanged { policy.now ≡ policy.now }
    {
        match next(self, policy, taken) {
            Ok(outcome) => outcome,
            Err(refusal) => Outcome {
                answer: Err(refusal),
                session: self,
            },
        }
    }
}

// The outcome of a round, or the refusal by the policy's test, or else by the session's.
#[tactic(auto, using(crate::proofs::ProgramLaws::round_tested, crate::proofs::ProgramLaws::round_untested))]
fn next(session: Session, policy: &[u8], taken: Move) -> Result<Outcome, Refusal>
    ensures { outcome_or (session_of session) result ≡ round policy.now (session_of session) (move_of taken) }
{
    let examined = examine(policy);
    let Ok(levels) = examined else {
        return Err(examined.unwrap_err().into());
    };
    test(session, taken)?;
    Ok(accepted_round(session, policy, &levels, taken))
}
