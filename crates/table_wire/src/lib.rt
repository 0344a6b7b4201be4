// A table of slots in bytes, for C: an opening, a round and its preview at one of them (slot_packing's specs/Calls says what they reply
// and leave).
#![tactic(auto)]

ghost use Rattle.std.specs.Prelude.{◌≡◌};
ghost use Rattle.slot_packing.specs.Calls.{open_at_call, preview_at_call, round_at_call, turn_at};
ghost use Rattle.slot_steps.specs.Types.{turn_of};

use count::{owned, reach};
use packed::{EMPTY, pack_slot, put, slot_at};
use session::Move;
use slot_steps::opening::{open_past, slot_open};
use slot_steps::round::{Turn, round_past, slot_round};
use wire::reply::{DONE, of_ending};

mod count;
mod packed;
mod reply;

pub const SLOT_BYTES: usize = 12;

// An opening at a slot for an owner; the slot is written unless the opening is refused.
pub fn open_at(table: &mut [u8], slot: usize, owner: u8, request: u16) -> u32
    ensures answer { result ≡ (open_at_call table.old slot owner request).reply }
    ensures written { table.new ≡ (open_at_call table.old slot owner request).leaves }
{
    let slots = reach(table.len());
    if slot >= slots {
        return reply::of_opens(open_past(request));
    }
    let Some(before) = slot_at(table, slot) else {
        return reply::no_slot(request);
    };
    match slot_open(before, owned(table, slots, owner), owner, request) {
        Ok(after) => {
            put(table, slot, after);
            DONE
        }
        Err(refusal) => reply::of_refusal(refusal),
    }
}

// A round of the session at a slot; the slot is written unless the round is refused.
pub fn round_at(policy: &[u8], table: &mut [u8], slot: usize, shown: u16) -> u32
    ensures answer { result ≡ (round_at_call policy.now table.old slot shown).reply }
    ensures written { table.new ≡ (round_at_call policy.now table.old slot shown).leaves }
    ensures unchanged { policy.now ≡ policy.now }
{
    let turn = turn_at(policy, table, slot, shown);
    match turn.answer {
        Ok(ending) => {
            put(table, slot, turn.slot);
            of_ending(ending)
        }
        Err(refusal) => reply::of_refusal(refusal),
    }
}

// A preview of that round: its reply, and the slot after it; an empty one where no session is given.
#[tactic(auto, unfolding(slot_packing::specs::Calls::preview_at_call))]
pub fn preview_at(
    policy: &[u8],
    table: &[u8],
    slot: usize,
    shown: u16,
    preview: &mut [u8; SLOT_BYTES],
) -> u32
    ensures answer { result ≡ (preview_at_call policy.now table.now slot shown).reply }
    ensures written { preview.new ≡ (preview_at_call policy.now table.now slot shown).leaves }
    ensures unchanged { (policy.now ≡ policy.now) × (table.now ≡ table.now) }
{
    let turn = turn_at(policy, table, slot, shown);
    *preview = pack_slot(turn.slot);
    reply::of_answer(turn.answer)
}

// What the round answers, and the slot after it.
fn turn_at(policy: &[u8], table: &[u8], slot: usize, shown: u16) -> Turn
    ensures { turn_of result ≡ turn_at policy.now table.now slot shown }
{
    if slot >= reach(table.len()) {
        return Turn {
            answer: round_past(policy),
            slot: EMPTY,
        };
    }
    // What is no slot is answered as an empty one is.
    let held = slot_at(table, slot).unwrap_or(EMPTY);
    slot_round(held, policy, Move { shows: shown })
}
