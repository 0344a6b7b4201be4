// A round at one slot.
ghost use Rattle.std.specs.Prelude.{◌≡◌};
ghost use Rattle.encoding.specs.LittleEndian.{Bytes};
ghost use Rattle.form.specs.PolicyTest.{policy_refusal};
ghost use Rattle.rounds.specs.Rounds.{refused};
ghost use Rattle.slots.specs.RoundsAt.{held_by, policy_or, refused_by, slot_round};
ghost use Rattle.session.specs.Types.{move_of, outcome_of};
ghost use Rattle.slot_steps.specs.Types.{Typed, answer_of, refusal_of, slot_of, turn_of};

use crate::answer::Answer;
use crate::refusal::Refusal;
use crate::{Holding, Slot};
use policy::check;
use session::{Move, Outcome};

// What a round at one slot answers, and the slot after it.
#[derive(Clone, Copy)]
pub struct Turn {
    pub answer: Answer,
    pub slot: Slot,
}

// At a slot of the list.
pub fn slot_round(slot: Slot, policy: &[u8], taken: Move) -> Turn
    ensures { (turn_of result ≡ slot_round policy.now (slot_of slot) (move_of taken)) × Typed policy.now (slot_of slot) (move_of taken) }
{
    match slot.holding {
        Some(held) => turn_of(held.owner, held.session.round(policy, taken)),
        None => Turn {
            answer: refused_by(policy, session::refusal::Refusal::Unsound.into()),
            slot,
        },
    }
}

// The owner stays; the slot holds the next session.
fn turn_of(owner: u8, outcome: Outcome) -> Turn
    ensures { turn_of result ≡ held_by owner (outcome_of outcome) }
{
    let session = outcome.session;
    Turn {
        answer: outcome.answer.map_err(Refusal::Session),
        slot: Slot {
            holding: Some(Holding { owner, session }),
        },
    }
}

// Where no slot has the number.
pub fn round_past(policy: &[u8]) -> Answer
    ensures { (answer_of result ≡ refused_by policy.now 14) × Bytes policy.now }
{
    refused_by(policy, Refusal::NoSlot)
}

// The policy's refusal, or else this one.
fn refused_by(policy: &[u8], refusal: Refusal) -> Answer
    ensures { (answer_of result ≡ refused (policy_or (policy_refusal policy.now) (refusal_of refusal))) × Bytes policy.now }
{
    check(policy)?;
    Err(refusal)
}
