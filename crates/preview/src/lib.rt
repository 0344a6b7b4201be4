// A preview of a round at a slot of a lent list (document 02, R-6). The paper's word for a slot is seat.
#![tactic(auto)]

ghost use Rattle.std.specs.Prelude.{◌≡◌};
ghost use Rattle.previews.specs.Meanings.{PreviewMeets};
ghost use Rattle.previews.specs.Previews.{preview_at};
ghost use Rattle.session.specs.Types.{move_of};
ghost use Rattle.slot_preview.specs.Types.{preview_of};
ghost use Rattle.occupancy.specs.Types.{table_of};

use occupancy::slots_in;
use session::Move;
use slot_preview::{Preview, preview_past, slot_preview};
use slot_steps::Slot;

// What a round of the session at a slot would answer, and the session after it. The list is left, and slots past the 64th are not read.
pub fn preview_at<'a, 'b>(slots: &'a [Slot], policy: &'b [u8], slot: usize, taken: Move) -> Preview
    ensures answer { preview_of result ≡ preview_at policy.now (table_of slots.now) slot (move_of taken) }
    ensures meaning { PreviewMeets policy.now (table_of slots.now) slot (move_of taken) (preview_of result) }
    ensures left { slots.now ≡ slots.now }
    ensures unchanged { policy.now ≡ policy.now }
{
    let end = slots_in(slots.len());
    if slot < end {
        slot_preview(slots[slot], policy, taken)
    } else {
        preview_past(policy)
    }
}
