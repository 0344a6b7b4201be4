// The input a record at a time: the request, then rounds.
ghost use Rattle.std.specs.Prelude.{◌≡◌};
ghost use Rattle.transcript.specs.Steps.{ending, opened_step, record_step, request_step, round_step};
ghost use Rattle.form.specs.PolicyTest.{policy_refusal};
ghost use Rattle.rounds.specs.Rounds.{round};
ghost use Rattle.session.specs.Types.{move_of, opened_of, session_of};
ghost use Rattle.console.specs.Steps.{events_of, record_step_of, stage_of};

use crate::event::Event;
use policy::check;
use session::refusal::Refusal;
use session::{Move, Session};

// What the next record is.
#[derive(Clone, Copy)]
pub enum Stage {
    Request,
    // What a round of this session shows.
    Rounds(Session),
    // Nothing more is told.
    Ended,
}

// What a record tells, and the stage then.
#[derive(Drop)]
pub(crate) struct RecordStep {
    pub(crate) event: Event,
    pub(crate) stage: Stage,
}

// The next record.
#[tactic(auto, unfolding(transcript::specs::Steps::record_step))]
pub(crate) fn record(stage: Stage, policy: &[u8], number: u16) -> RecordStep
    ensures { record_step_of result ≡ record_step policy.now (stage_of stage) number }
{
    match stage {
        Stage::Request => request(policy, number),
        Stage::Rounds(session) => round(session, policy, Move { shows: number }),
        Stage::Ended => ended(Event::Nothing),
    }
}

// The request: the policy is tested first.
fn request(policy: &[u8], request: u16) -> RecordStep
    ensures { record_step_of result ≡ request_step (policy_refusal policy.now) request }
{
    match open(policy, request) {
        Ok(session) => RecordStep {
            event: Event::Nothing,
            stage: Stage::Rounds(session),
        },
        Err(refusal) => ended(Event::Unopened(refusal)),
    }
}

// A session under an accepted policy.
fn open(policy: &[u8], request: u16) -> Result<Session, Refusal>
    ensures { opened_step (opened_of result) ≡ request_step (policy_refusal policy.now) request }
{
    check(policy)?;
    Session::open(request)
}

// A round, refused or not.
fn round(session: Session, policy: &[u8], taken: Move) -> RecordStep
    ensures { record_step_of result ≡ round_step (move_of taken) (round policy.now (session_of session) (move_of taken)) }
{
    let outcome = session.round(policy, taken);
    RecordStep {
        event: Event::Played(taken, outcome),
        stage: Stage::Rounds(outcome.session),
    }
}

// The last that is told, or nothing.
fn ended(event: Event) -> RecordStep
    ensures { record_step_of result ≡ ending (events_of event) }
{
    RecordStep {
        event,
        stage: Stage::Ended,
    }
}
