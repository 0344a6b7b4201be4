// Answers at a slot as numbers (packing's specs/Replies says which).
ghost use Rattle.std.specs.Prelude.{◌≡◌};
ghost use Rattle.rounds.specs.Rounds.{opening};
ghost use Rattle.slot_steps.specs.Types.{answer_of, opens_of, refusal_of};
ghost use Rattle.packing.specs.Replies.{answer_reply, refusal_reply};
ghost use Rattle.slot_packing.specs.Calls.{opening_reply};
ghost use Rattle.table_wire.specs.Types.{no_slot_reply};

use session::Session;
use slot_steps::answer::Answer;
use slot_steps::refusal::Refusal;
use wire::reply;
use wire::reply::DONE;

pub(crate) fn of_refusal(refusal: Refusal) -> u32
    ensures { result ≡ refusal_reply (refusal_of refusal) }
{
    match refusal {
        Refusal::Session(refused) => reply::of_refusal(refused),
        Refusal::NoSlot | Refusal::Unfinished | Refusal::Full => u32::from(refusal.number()),
    }
}

pub(crate) fn of_opens(opens: Result<(), Refusal>) -> u32
    ensures { result ≡ opening_reply (opens_of opens) }
{
    match opens {
        Ok(()) => DONE,
        Err(refusal) => of_refusal(refusal),
    }
}

pub(crate) fn of_answer(answer: Answer) -> u32
    ensures { result ≡ answer_reply (answer_of answer) }
{
    match answer {
        Ok(ending) => reply::of_ending(ending),
        Err(refusal) => of_refusal(refusal),
    }
}

// An opening at what is no slot is refused 8, after the request's test.
pub(crate) fn no_slot(request: u16) -> u32
    ensures { result ≡ no_slot_reply (opening request) }
{
    match Session::open(request) {
        Ok(_) => reply::of_refusal(session::refusal::Refusal::Unsound),
        Err(refusal) => reply::of_refusal(refusal),
    }
}
