// A lent list of slots (document 02, R-5): openings and rounds at one of them. The paper's word for a slot is seat.
#![tactic(auto)]

ghost use Rattle.std.specs.Prelude.{◌≡◌};
ghost use Rattle.slots.specs.Meanings.{OpeningAtMeets, RoundAtMeets};
ghost use Rattle.slots.specs.Openings.{open_at};
ghost use Rattle.slots.specs.RoundsAt.{round_at};
ghost use Rattle.session.specs.Types.{move_of};
ghost use Rattle.slot_steps.specs.Types.{answer_of, opens_of};
ghost use Rattle.occupancy.specs.Types.{table_of};

use occupancy::{owned, slots_in};
use session::Move;
use slot_steps::Slot;
use slot_steps::answer::Answer;
use slot_steps::opening::{open_past, slot_open};
use slot_steps::refusal::Refusal;
use slot_steps::round::{round_past, slot_round};

// An opening at a slot for an owner. The slots past the 64th are not read.
pub fn open_at(slots: &mut [Slot], slot: usize, owner: u8, request: u16) -> Result<(), Refusal>
    ensures answer { opens_of result ≡ (open_at (table_of slots.old) slot owner request).answer }
    ensures table { table_of slots.new ≡ (open_at (table_of slots.old) slot owner request).table }
    ensures meaning { OpeningAtMeets (table_of slots.old) slot owner request (record { answer = opens_of result; table = table_of slots.new }) }
{
    let reach = slots_in(slots.len());
    if slot < reach {
        let count = owned(slots, reach, owner);
        slots[slot] = slot_open(slots[slot], count, owner, request)?;
        Ok(())
    } else {
        open_past(request)
    }
}

// A round of the session at a slot.
pub fn round_at<'a, 'b>(slots: &'a mut [Slot], policy: &'b [u8], slot: usize, taken: Move) -> Answer
    ensures answer { answer_of result ≡ (round_at policy.now (table_of slots.old) slot (move_of taken)).answer }
    ensures table { table_of slots.new ≡ (round_at policy.now (table_of slots.old) slot (move_of taken)).table }
    ensures meaning { RoundAtMeets policy.now (table_of slots.old) slot (move_of taken) (record { answer = answer_of result; table = table_of slots.new }) }
    ensures unchanged { policy.now ≡ policy.now }
{
    let end = slots_in(slots.len());
    if slot < end {
        let turn = slot_round(slots[slot], policy, taken);
        slots[slot] = turn.slot;
        turn.answer
    } else {
        round_past(policy)
    }
}
