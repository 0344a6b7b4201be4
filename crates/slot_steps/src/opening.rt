// An opening at one slot.
ghost use Rattle.std.specs.Prelude.{◌≡◌};
ghost use Rattle.slots.specs.Slots.{is_free};
ghost use Rattle.slot_steps.specs.Steps.{open_slot, past_refusal};
ghost use Rattle.slot_steps.specs.Types.{opening_of, opens_of, slot_of};

use crate::refusal::Refusal;
use crate::{Holding, Slot};
use session::Session;

// No owner has more unfinished sessions.
const MOST_UNFINISHED: u8 = 4;

// At a slot of the list, where the owner has so many unfinished sessions: the slot once it is taken, or the refusal.
pub fn slot_open(slot: Slot, count: u8, owner: u8, request: u16) -> Result<Slot, Refusal>
    ensures { opening_of (slot_of slot) result ≡ open_slot (slot_of slot) count owner request }
{
    let session = Session::open(request)?;
    if !is_free(slot) {
        return Err(Refusal::Unfinished);
    }
    if count >= MOST_UNFINISHED {
        return Err(Refusal::Full);
    }
    Ok(Slot {
        holding: Some(Holding { owner, session }),
    })
}

// The slot is empty, or its session is closed.
fn is_free(slot: Slot) -> bool
    ensures { result ≡ is_free (slot_of slot) }
{
    match slot.holding {
        Some(held) => held.session.phase.is_closed(),
        None => true,
    }
}

// Where no slot has the number: refused.
pub fn open_past(request: u16) -> Result<(), Refusal>
    ensures { opens_of result ≡ past_refusal request }
{
    Session::open(request)?;
    Err(Refusal::NoSlot)
}
