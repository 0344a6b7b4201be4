// Which sessions are sound.
ghost use Rattle.std.specs.Prelude.{◌≡◌};
ghost use Rattle.question.specs.Types.{question_of};
ghost use Rattle.rounds.specs.Sessions.{count_test, fresh, is_service, is_sound, phase_test, question_test, waiting};
ghost use Rattle.session.specs.Types.{phase_of, session_of};

use crate::{Phase, Session};
use atoms::{AtomSet, FIRST_DERIVED, LAST_DERIVED};
use question::Question;

// 16 to 62.
pub(crate) fn is_service(request: u16) -> bool
    ensures { result ≡ is_service request }
{
    u16::from(FIRST_DERIVED) <= request && request <= u16::from(LAST_DERIVED)
}

// What opening and rounds give is sound; anything else may be handed in.
pub(crate) fn is_sound(session: Session) -> bool
    ensures { result ≡ is_sound (session_of session) }
{
    is_service(session.request) && phase_fits(session)
}

// What each phase asks of the sets and the count.
fn phase_fits(session: Session) -> bool
    ensures { result ≡ phase_test (session_of session) (phase_of session.phase) }
{
    match session.phase {
        Phase::Fresh => is_untouched(session),
        Phase::Waiting(question) => waiting_fits(session, question),
        Phase::Closed(_) => count_fits(session),
    }
}

// Nothing shown, nothing declined, no round.
fn is_untouched(session: Session) -> bool
    ensures { result ≡ phase_test (session_of session) fresh }
{
    session.shown == 0 && session.declined == 0 && session.count == 0
}

// The question, and the count.
fn waiting_fits(session: Session, question: Question) -> bool
    ensures { result ≡ phase_test (session_of session) (waiting (question_of question)) }
{
    question_fits(session, question) && count_fits(session)
}

// Not empty, and nothing of it shown or declined.
fn question_fits(session: Session, question: Question) -> bool
    ensures { result ≡ question_test (session_of session) (question_of question) }
{
    let asks = question.asks;
    asks != 0 && asks & (session.shown | session.declined) == 0
}

// 1 to 1 plus the ones in the shown set joined with the declined set.
fn count_fits(session: Session) -> bool
    ensures { result ≡ count_test (session_of session) }
{
    let met = AtomSet::credentials(session.shown | session.declined);
    let most = 1 + met.count();
    1 <= session.count && u32::from(session.count) <= most
}
