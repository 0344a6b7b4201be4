// The input a record at a time.
ghost use Rattle.std.specs.Prelude.{◌≡◌};
ghost use Rattle.slots.specs.Openings.{open_at};
ghost use Rattle.slots.specs.RoundsAt.{round_at};
ghost use Rattle.previews.specs.Previews.{preview_at};
ghost use Rattle.session.specs.Types.{move_of};
ghost use Rattle.occupancy.specs.Types.{table_of};
ghost use Rattle.lines.specs.Lines.{Room};
ghost use Rattle.station_lines.specs.Steps.{Does, opening_step, preview_step, record_step, round_step};

use crate::{of_opening, of_preview, of_round};
use lines::line::Line;
use session::Move;
use slot_steps::Slot;
use station_table::{SLOTS, count_at, open_in, preview_in, round_in};

// An operation, a slot, an owner, and two bytes of a number.
pub const RECORD_BYTES: usize = 5;

// What a record prints, and the slots after it.
#[derive(Clone, Copy)]
pub struct Step {
    pub line: Line,
    pub slots: [Slot; SLOTS],
}

// The next record.
#[tactic(auto, using(crate::proofs::StepLaws::step_opens, crate::proofs::StepLaws::step_plays, crate::proofs::StepLaws::step_previews, crate::proofs::StepLaws::step_passes, console::proofs::NumberLaws::two_bytes))]
pub fn record(slots: [Slot; SLOTS], policy: &[u8], bytes: [u8; RECORD_BYTES]) -> Step
    ensures does { Does result (record_step policy.now (table_of slots) bytes) }
    ensures fits { Room result.line 0 }
    ensures unchanged { policy.now ≡ policy.now }
{
    let [operation, slot, owner, low, high] = bytes;
    let number = u16::from_le_bytes([low, high]);
    // The numbers of document 02's records: an enum would be made and matched here alone.
    match operation {
        1 => opening(slots, slot, owner, number),
        2 => round(slots, policy, slot, Move { shows: number }),
        3 => preview(slots, policy, slot, Move { shows: number }),
        _ => Step {
            line: Line::empty(),
            slots,
        },
    }
}

// An opening.
fn opening(slots: [Slot; SLOTS], slot: u8, owner: u8, request: u16) -> Step
    ensures does { Does result (opening_step slot (open_at (table_of slots) slot owner request)) }
    ensures fits { Room result.line 0 }
{
    let after = open_in(slots, slot as usize, owner, request);
    let slots = after.slots;
    Step {
        line: of_opening(slot, after.answer),
        slots,
    }
}

// A round.
fn round(slots: [Slot; SLOTS], policy: &[u8], slot: u8, taken: Move) -> Step
    ensures does { Does result (round_step slot (move_of taken) (round_at policy.now (table_of slots) slot (move_of taken))) }
    ensures fits { Room result.line 0 }
{
    let after = round_in(slots, policy, slot as usize, taken);
    let slots = after.slots;
    let count = count_at(slots, slot as usize);
    Step {
        line: of_round(slot, taken, after.answer, count),
        slots,
    }
}

// A preview of a round; the slots stay as they are.
fn preview(slots: [Slot; SLOTS], policy: &[u8], slot: u8, taken: Move) -> Step
    ensures does { Does result (preview_step slot (move_of taken) (preview_at policy.now (table_of slots) slot (move_of taken)) (table_of slots)) }
    ensures fits { Room result.line 0 }
{
    let preview = preview_in(slots, policy, slot as usize, taken);
    Step {
        line: of_preview(slot, taken, preview),
        slots,
    }
}
