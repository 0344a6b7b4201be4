// A preview of a round at one slot (document 02, R-6): what the round would answer, and the session after it.
#![tactic(auto)]

ghost use Rattle.std.specs.Prelude.{◌≡◌};
ghost use Rattle.std.proofs.Math.Option.{none};
ghost use Rattle.encoding.specs.LittleEndian.{Bytes};
ghost use Rattle.slots.specs.RoundsAt.{refused_by};
ghost use Rattle.previews.specs.Previews.{preview_slot, session_held};
ghost use Rattle.session.specs.Types.{move_of};
ghost use Rattle.slot_steps.specs.Types.{Typed, slot_of};
ghost use Rattle.slot_preview.specs.Types.{next_of, preview_of};

use session::{Move, Session};
use slot_steps::Slot;
use slot_steps::answer::Answer;
use slot_steps::round::{round_past, slot_round};

// What a preview gives: the answer, and the session after the round, or none where the slot is empty or there is no slot.
#[derive(Clone, Copy)]
pub struct Preview {
    pub answer: Answer,
    pub session: Option<Session>,
}

// At a slot of the list.
pub fn slot_preview(slot: Slot, policy: &[u8], taken: Move) -> Preview
    ensures gives { (preview_of result ≡ preview_slot policy.now (slot_of slot) (move_of taken)) × Typed policy.now (slot_of slot) (move_of taken) }
    ensures unchanged { policy.now ≡ policy.now }
{
    let turn = slot_round(slot, policy, taken);
    Preview {
        answer: turn.answer,
        session: session_of(turn.slot),
    }
}

// The session that a slot holds.
fn session_of(slot: Slot) -> Option<Session>
    ensures { next_of result ≡ session_held (slot_of slot) }
{
    slot.holding.map(|held| held.session)
}

// Where no slot has the number.
pub fn preview_past(policy: &[u8]) -> Preview
    ensures gives { (preview_of result ≡ record { answer = refused_by policy.now 14; session = none }) × Bytes policy.now }
    ensures unchanged { policy.now ≡ policy.now }
{
    Preview {
        answer: round_past(policy),
        session: None,
    }
}
