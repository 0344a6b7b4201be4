// A slot as twelve bytes (slot_packing's specs/PackedSlots has its layout).
ghost use Rattle.std.specs.Prelude.{◌≡◌, ◌==◌, ◌∷◌, ◌*◌, ◌+◌, ◌≤◌, length};
ghost use Rattle.std.specs.List.{list_all};
ghost use Rattle.slot_packing.specs.PackedSlots.{held_in, packed_slot, slot_in, unpacked_slot, with_slot};
ghost use Rattle.slot_steps.specs.Types.{slot_of};
ghost use Rattle.table_wire.specs.Types.{found_of};

use crate::SLOT_BYTES;
use slot_steps::{Holding, Slot};
use wire::packed::{RECORD_BYTES, pack, unpack};

pub(crate) const EMPTY: Slot = Slot { holding: None };

pub(crate) const HELD: u8 = 1;

// Slot k of a table that has it, if its twelve bytes stand for a slot.
#[tactic(auto, unfolding(slot_packing::specs::PackedSlots::slot_in))]
pub(crate) fn slot_at(table: &[u8], k: usize) -> Option<Slot>
    requires { 12 * k + 12 ≤ length table.now }
    ensures { found_of result ≡ slot_in table.now k }
{
    let at = SLOT_BYTES * k;
    unpack_slot(&table[at..at + SLOT_BYTES])
}

// Of twelve bytes.
#[tactic(auto, using(validation::proofs::TestLaws::true_eqb, crate::proofs::ByteLaws::all_zero_is), unfolding(slot_packing::specs::PackedSlots::unpacked_slot))]
fn unpack_slot(bytes: &[u8]) -> Option<Slot>
    requires { length bytes.now ≡ 12 }
    ensures { found_of result ≡ unpacked_slot bytes.now }
{
    if bytes[1] == HELD {
        return unpack_held(bytes);
    }
    if all_zero(bytes) {
        return Some(EMPTY);
    }
    None
}

// A slot with an owner, if the other bytes are a session.
pub(crate) fn unpack_held(bytes: &[u8]) -> Option<Slot>
    requires { length bytes.now ≡ 12 }
    ensures { found_of result ≡ held_in bytes.now }
{
    let mut record = [0u8; RECORD_BYTES];
    record.copy_from_slice(&bytes[2..]);
    let session = unpack(&record)?;
    Some(Slot {
        holding: Some(Holding {
            owner: bytes[0],
            session,
        }),
    })
}

fn all_zero(bytes: &[u8]) -> bool
    ensures { result ≡ list_all (λ byte. byte == 0) bytes.now }
{
    bytes.iter().all(|byte| *byte == 0)
}

// Slot k of a table that has it is replaced.
#[tactic(auto, unfolding(slot_packing::specs::PackedSlots::with_slot))]
pub(crate) fn put(table: &mut [u8], k: usize, slot: Slot)
    requires { 12 * k + 12 ≤ length table.old }
    ensures { table.new ≡ with_slot table.old k (slot_of slot) }
{
    let at = SLOT_BYTES * k;
    table[at..at + SLOT_BYTES].copy_from_slice(&pack_slot(slot));
}

#[tactic(auto, unfolding(slot_packing::specs::PackedSlots::packed_slot))]
pub(crate) fn pack_slot(slot: Slot) -> [u8; SLOT_BYTES]
    ensures { result ≡ packed_slot (slot_of slot) }
{
    match slot.holding {
        None => [0u8; SLOT_BYTES],
        Some(held) => pack_held(held.owner, &pack(held.session)),
    }
}

fn pack_held(owner: u8, session: &[u8; RECORD_BYTES]) -> [u8; SLOT_BYTES]
    ensures { result ≡ owner ∷ 1 ∷ session.now }
{
    let mut bytes = [0u8; SLOT_BYTES];
    bytes[0] = owner;
    bytes[1] = HELD;
    bytes[2..].copy_from_slice(session);
    bytes
}
