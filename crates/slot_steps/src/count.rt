// Whether a slot counts against an owner.
ghost use Rattle.std.specs.Prelude.{◌≡◌, ◌+◌, ◌<◌};
ghost use Rattle.slots.specs.Slots.{unfinished_of};
ghost use Rattle.slot_steps.specs.Types.{slot_of};

use crate::Slot;

// One slot more is counted.
#[tactic(auto, unfolding(slots::specs::Slots::unfinished_of))]
pub fn tally(slot: Slot, owner: u8, count: u8) -> u8
    requires { count < 255 }
    ensures { result ≡ count + unfinished_of owner (slot_of slot) }
{
    match slot.holding {
        Some(held) if held.owner == owner && !held.session.phase.is_closed() => count + 1,
        _ => count,
    }
}
