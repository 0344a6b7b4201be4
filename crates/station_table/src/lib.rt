// The station's own slots, which it hands on by value: they are lent for the time of an opening or a round (document 02, R-5).
#![tactic(auto)]

ghost use Rattle.std.specs.Prelude.{◌≡◌};
ghost use Rattle.slots.specs.Openings.{open_at};
ghost use Rattle.slots.specs.RoundsAt.{round_at};
ghost use Rattle.operations.specs.AtSlot.{session_in};
ghost use Rattle.previews.specs.Previews.{preview_at};
ghost use Rattle.session.specs.Types.{move_of};
ghost use Rattle.slot_steps.specs.Types.{slot_of};
ghost use Rattle.slot_preview.specs.Types.{preview_of};
ghost use Rattle.occupancy.specs.Types.{table_of};
ghost use Rattle.station_table.specs.Types.{count_at, empty_table, opening_of, round_of};

use preview::preview_at;
use session::Move;
use slot_preview::Preview;
use slot_steps::Slot;
use slot_steps::answer::Answer;
use slot_steps::refusal::Refusal;
use table::{open_at, round_at};

// As many slots as can be named.
pub const SLOTS: usize = 64;

// What an opening or a round answers, and the slots after it.
#[derive(Clone, Copy)]
pub struct After<A> {
    pub answer: A,
    pub slots: [Slot; SLOTS],
}

// All of them empty.
pub fn empty() -> [Slot; SLOTS]
    ensures { table_of result ≡ empty_table }
{
    [Slot { holding: None }; SLOTS]
}

// The count of the session at a slot, 0 where there is none.
#[tactic(auto, using(crate::proofs::CountLaws::none_past))]
pub fn count_at(slots: [Slot; SLOTS], slot: usize) -> u8
    ensures { result ≡ count_at (table_of slots) slot }
{
    if slot >= SLOTS {
        return 0;
    }
    count_of(slots[slot])
}

// The count of one slot's session.
fn count_of(slot: Slot) -> u8
    ensures { result ≡ (session_in (slot_of slot)).count }
{
    slot.holding.map_or(0, |held| held.session.count)
}

// An opening at a slot for an owner.
pub fn open_in(
    slots: [Slot; SLOTS],
    slot: usize,
    owner: u8,
    request: u16,
) -> After<Result<(), Refusal>>
    ensures { opening_of result ≡ open_at (table_of slots) slot owner request }
{
    let mut lent = slots;
    let answer = open_at(&mut lent, slot, owner, request);
    After {
        answer,
        slots: lent,
    }
}

// A round of the session at a slot.
pub fn round_in(slots: [Slot; SLOTS], policy: &[u8], slot: usize, taken: Move) -> After<Answer>
    ensures { round_of result ≡ round_at policy.now (table_of slots) slot (move_of taken) }
{
    let mut lent = slots;
    let answer = round_at(&mut lent, policy, slot, taken);
    After {
        answer,
        slots: lent,
    }
}

// What a round of the session at a slot would answer, and the session after it; the slots are lent for it.
pub fn preview_in(slots: [Slot; SLOTS], policy: &[u8], slot: usize, taken: Move) -> Preview
    ensures gives { preview_of result ≡ preview_at policy.now (table_of slots) slot (move_of taken) }
    ensures unchanged { policy.now ≡ policy.now }
{
    preview_at(&slots, policy, slot, taken)
}
