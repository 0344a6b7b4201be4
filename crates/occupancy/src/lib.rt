// A lent list of slots (document 02, R-5): how many can be named, and how many unfinished sessions an owner has in them.
#![tactic(auto)]

ghost use Rattle.std.specs.Prelude.{◌≡◌, ◌≤◌, length};
ghost use Rattle.slots.specs.Slots.{slot_limit, unfinished};
ghost use Rattle.occupancy.specs.Types.{slots_in, table_of};

use slot_steps::Slot;
use slot_steps::count::tally;

// So many slots of a list can be named.
const SLOT_LIMIT: usize = 64;

// How many of n slots can be named.
pub fn slots_in(n: usize) -> usize
    ensures { result ≡ slots_in n }
{
    n.min(SLOT_LIMIT)
}

// How many of the first slots hold an unfinished session of the owner's.
#[tactic(auto, using(crate::proofs::ListLaws::one_more, crate::proofs::ListLaws::few_counted, crate::proofs::ListLaws::all_of_front, slots::proofs::CountLaws::unfinished_none))]
pub fn owned(slots: &[Slot], reach: usize, owner: u8) -> u8
    requires { (reach ≤ length slots.now) × (reach ≤ slot_limit) }
    ensures { result ≡ unfinished owner (table_of slots.now) reach }
{
    let mut count = 0;
    for slot in &slots[..reach] {
        count = tally(*slot, owner, count);
    }
    count
}
