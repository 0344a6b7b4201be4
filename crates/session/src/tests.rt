// The tests of a session in a round, in number order.
ghost use Rattle.std.specs.Prelude.{◌≡◌};
ghost use Rattle.rounds.specs.RoundTest.{session_refusal};
ghost use Rattle.session.specs.Types.{admission_of, move_of, session_of};

use crate::refusal::Refusal;
use crate::sound::{is_service, is_sound};
use crate::{Move, Session};

// Under an accepted policy: nothing against the session, or the first refusal.
#[tactic(auto, using(crate::proofs::ProgramLaws::not_service, crate::proofs::ProgramLaws::not_sound, crate::proofs::ProgramLaws::not_open, crate::proofs::ProgramLaws::all_passed))]
pub(crate) fn test(session: Session, taken: Move) -> Result<(), Refusal>
    ensures { admission_of result ≡ session_refusal (session_of session) (move_of taken) }
{
    if !is_service(session.request) {
        return Err(Refusal::Request);
    }
    if !is_sound(session) {
        return Err(Refusal::Unsound);
    }
    if session.phase.is_closed() {
        return Err(Refusal::Closed);
    }
    Ok(())
}
