// How many slots a table has, and how many of them hold an owner's unfinished sessions.
ghost use Rattle.std.specs.Prelude.{◌≡◌, ◌*◌, ◌+◌, ◌/◌, ◌<◌, ◌≤◌, min, length};
ghost use Rattle.slot_packing.specs.Calls.{count_in, unfinished_in};
ghost use Rattle.slot_packing.specs.PackedSlots.{unpacked_slot};

use crate::SLOT_BYTES;
use crate::packed::{HELD, unpack_held};
use occupancy::slots_in;
use slot_steps::count::tally;

// How many slots of a table of so many bytes can be named.
pub(crate) fn reach(bytes: usize) -> usize
    ensures { result ≡ min (bytes / 12) 64 }
{
    slots_in(bytes / SLOT_BYTES)
}

// How many of the first slots hold an unfinished session of the owner's.
#[tactic(auto, using(crate::proofs::CountLaws::counted_none, crate::proofs::CountLaws::counted_next, crate::proofs::CountLaws::counted_most), unfolding(slot_packing::specs::PackedSlots::slot_in))]
pub(crate) fn owned(table: &[u8], slots: usize, owner: u8) -> u8
    requires { (12 * slots ≤ length table.now) × (slots ≤ 64) }
    ensures { result ≡ unfinished_in owner table.now slots }
{
    let mut count: u8 = 0;
    for k in 0..slots {
        let at = SLOT_BYTES * k;
        count = one_more(&table[at..at + SLOT_BYTES], owner, count);
    }
    count
}

// The slot of twelve bytes more is counted. Where nothing is held, the other bytes are not read: to tell an empty slot from none took longer than the rest.
#[tactic(auto, using(validation::proofs::TestLaws::true_eqb, crate::proofs::CountLaws::counted_held, crate::proofs::CountLaws::counted_broken, crate::proofs::CountLaws::counted_unheld))]
fn one_more(bytes: &[u8], owner: u8, count: u8) -> u8
    requires { (length bytes.now ≡ 12) × (count < 255) }
    ensures { result ≡ count + count_in owner (unpacked_slot bytes.now) }
{
    if bytes[1] != HELD {
        return count;
    }
    match unpack_held(bytes) {
        Some(slot) => tally(slot, owner, count),
        None => count,
    }
}
