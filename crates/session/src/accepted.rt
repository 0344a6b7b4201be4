// An accepted round: the sets, how it ends, and the next session.
ghost use Rattle.std.specs.Prelude.{◌≡◌, ◌≤◌};
ghost use Rattle.std.proofs.Math.Option.{none};
ghost use Rattle.records.specs.Policies.{policy_of};
ghost use Rattle.policy.specs.Types.{AcceptedWith};
ghost use Rattle.rounds.specs.RoundTest.{session_refusal};
ghost use Rattle.rounds.specs.Rounds.{decided, worked};
ghost use Rattle.rounds.specs.Sessions.{Service};
ghost use Rattle.session.specs.Types.{move_of, outcome_of, session_of, working_of};

use crate::answer::Ending;
use crate::ending::{ending, phase_after};
use crate::{Move, Outcome, Session};
use question::members::without;

// The sets as a round updates them, and how it ends.
#[derive(Drop)]
pub(crate) struct Working {
    shown: u16,
    declined: u16,
    ended: Ending,
}

// A round of a session that the tests accept, under an accepted policy, whose access rules keep these levels. The two are no struct: as its ghost field
// AcceptedWith is refused, since the check finds no proof that it has at most one value, and without it the struct says no more than the parameters.
pub(crate) fn accepted_round(
    session: Session,
    policy: &[u8],
    levels: &[u8; 64],
    taken: Move,
) -> Outcome
    requires { AcceptedWith policy.now levels.now × (session_refusal (session_of session) (move_of taken) ≡ none) }
    ensures { outcome_of result ≡ decided (session_of session) (worked (policy_of policy.now) (session_of session) (move_of taken)) }
{
    let working = worked(session, policy, levels, taken);
    decided(session, working)
}

// What was asked and is not shown now is declined.
fn worked(session: Session, policy: &[u8], levels: &[u8; 64], taken: Move) -> Working
    requires { AcceptedWith policy.now levels.now × Service session.request }
    ensures { working_of result ≡ worked (policy_of policy.now) (session_of session) (move_of taken) }
{
    let asked = session.phase.question().asks;
    let shows = taken.shows;
    let shown = session.shown | shows;
    let declined = session.declined | without(asked, shows);
    let ended = ending(policy, levels, session.request, shown, declined);
    Working {
        shown,
        declined,
        ended,
    }
}

// The answer and the next session.
fn decided(session: Session, working: Working) -> Outcome
    requires { session.count ≤ 65 }
    ensures { outcome_of result ≡ decided (session_of session) (working_of working) }
{
    let ended = working.ended;
    let count = session.count + 1;
    let phase = phase_after(ended);
    Outcome {
        answer: Ok(ended),
        session: Session {
            request: session.request,
            shown: working.shown,
            declined: working.declined,
            count,
            phase,
        },
    }
}
