// The gate for C (include/gate.h): a policy is bytes, a session is ten bytes that the caller lends, a table of slots twelve for
// each, and an answer is a number.
#![tactic(auto)]

ghost use Rattle.std.specs.Prelude.{◌≡◌};
ghost use Rattle.form.specs.PolicyTest.{policy_refusal};
ghost use Rattle.disclosure.specs.Answers.{disclosable_answer};
ghost use Rattle.model.specs.Answers.{model_answer};
ghost use Rattle.packing.specs.Exports.{check_reply, no_session_reply, open_call, round_call, set_after, set_reply};
ghost use Rattle.slot_packing.specs.Calls.{open_at_call, preview_at_call, round_at_call};
ghost use Rattle.logs.specs.Comparison.{compared};
ghost use Rattle.session_logs.specs.Exports.{comparison_reply, place_after, record_call};

use entries::ENTRY_BYTES;
use log_wire::{compare_logs, write_record};
use policy::check;
use session::refusal::Refusal;
use session::{Move, Session};
use table_wire::{SLOT_BYTES, open_at, preview_at, round_at};
use wire::packed::{RECORD_BYTES, pack, unpack};
use wire::reply;
use wire::reply::DONE;

// The policy's test.
#[unsafe(no_mangle)]
#[tactic(auto, unfolding(packing::specs::Exports::check_reply))]
pub extern "C" fn gate_check(policy: &[u8]) -> u32
    ensures answer { result ≡ check_reply policy.now }
    ensures unchanged { policy.now ≡ policy.now }
{
    match check(policy) {
        Ok(()) => DONE,
        Err(refusal) => reply::of_policy(refusal),
    }
}

// The model, written where the policy is accepted.
#[unsafe(no_mangle)]
pub extern "C" fn gate_model(policy: &[u8], credentials: u16, set: &mut u64) -> u32
    ensures answer { result ≡ set_reply (model_answer policy.now credentials) }
    ensures written { set.new ≡ set_after (model_answer policy.now credentials) set.old }
    ensures unchanged { policy.now ≡ policy.now }
{
    match model::model(policy, credentials) {
        Ok(atoms) => {
            *set = atoms.bits;
            DONE
        }
        Err(refusal) => reply::of_policy(refusal),
    }
}

// The disclosable set, written where the policy is accepted.
#[unsafe(no_mangle)]
pub extern "C" fn gate_disclosable(policy: &[u8], shown: u16, set: &mut u16) -> u32
    ensures answer { result ≡ set_reply (disclosable_answer policy.now shown) }
    ensures written { set.new ≡ set_after (disclosable_answer policy.now shown) set.old }
    ensures unchanged { policy.now ≡ policy.now }
{
    match disclosure::disclosable(policy, shown) {
        Ok(credentials) => {
            *set = credentials;
            DONE
        }
        Err(refusal) => reply::of_policy(refusal),
    }
}

// Opening; a fresh session is written unless the request is refused.
#[unsafe(no_mangle)]
#[tactic(auto, unfolding(packing::specs::Exports::open_call))]
pub extern "C" fn gate_open(request: u16, session: &mut [u8; RECORD_BYTES]) -> u32
    ensures answer { result ≡ (open_call request session.old).reply }
    ensures written { session.new ≡ (open_call request session.old).leaves }
{
    match Session::open(request) {
        Ok(fresh) => {
            *session = pack(fresh);
            DONE
        }
        Err(refusal) => reply::of_refusal(refusal),
    }
}

// A round; the next session is written unless the round is refused.
#[unsafe(no_mangle)]
#[tactic(auto, unfolding(packing::specs::Exports::round_call))]
pub extern "C" fn gate_round(policy: &[u8], session: &mut [u8; RECORD_BYTES], shown: u16) -> u32
    ensures answer { result ≡ (round_call policy.now session.old shown).reply }
    ensures written { session.new ≡ (round_call policy.now session.old shown).leaves }
    ensures unchanged { policy.now ≡ policy.now }
{
    let Some(before) = unpack(session) else {
        return no_session(policy);
    };
    let outcome = before.round(policy, Move { shows: shown });
    match outcome.answer {
        Ok(ending) => {
            *session = pack(outcome.session);
            reply::of_ending(ending)
        }
        Err(refusal) => reply::of_refusal(refusal),
    }
}

// The log record of a round, written unless the round was refused; the number of bytes written comes back.
#[unsafe(no_mangle)]
pub extern "C" fn gate_log_record(
    shown: u16,
    reply: u32,
    session: &[u8; RECORD_BYTES],
    bytes: &mut [u8; ENTRY_BYTES],
) -> usize
    ensures answer { result ≡ (record_call shown reply session.now bytes.old).reply }
    ensures written { bytes.new ≡ (record_call shown reply session.now bytes.old).leaves }
    ensures unchanged { session.now ≡ session.now }
{
    write_record(shown, reply, session, bytes)
}

// Two logs held against each other; the record where they part is written if they do.
#[unsafe(no_mangle)]
pub extern "C" fn gate_compare_logs(first: &[u8], second: &[u8], place: &mut usize) -> u32
    ensures answer { result ≡ comparison_reply (compared first.now second.now) }
    ensures written { place.new ≡ place_after (compared first.now second.now) place.old }
    ensures unchanged { (first.now ≡ first.now) × (second.now ≡ second.now) }
{
    compare_logs(first, second, place)
}

// An opening at a slot of a table for an owner; the slot is written unless the opening is refused.
#[unsafe(no_mangle)]
pub extern "C" fn gate_open_at(table: &mut [u8], slot: usize, owner: u8, request: u16) -> u32
    ensures answer { result ≡ (open_at_call table.old slot owner request).reply }
    ensures written { table.new ≡ (open_at_call table.old slot owner request).leaves }
{
    open_at(table, slot, owner, request)
}

// A round of the session at a slot of a table; the slot is written unless the round is refused.
#[unsafe(no_mangle)]
pub extern "C" fn gate_round_at(policy: &[u8], table: &mut [u8], slot: usize, shown: u16) -> u32
    ensures answer { result ≡ (round_at_call policy.now table.old slot shown).reply }
    ensures written { table.new ≡ (round_at_call policy.now table.old slot shown).leaves }
    ensures unchanged { policy.now ≡ policy.now }
{
    round_at(policy, table, slot, shown)
}

// A preview of that round: its reply, and in the preview the slot after it, or an empty one where no session is given.
#[unsafe(no_mangle)]
pub extern "C" fn gate_preview_at(
    policy: &[u8],
    table: &[u8],
    slot: usize,
    shown: u16,
    preview: &mut [u8; SLOT_BYTES],
) -> u32
    ensures answer { result ≡ (preview_at_call policy.now table.now slot shown).reply }
    ensures written { preview.new ≡ (preview_at_call policy.now table.now slot shown).leaves }
    ensures unchanged { (policy.now ≡ policy.now) × (table.now ≡ table.now) }
{
    preview_at(policy, table, slot, shown, preview)
}

// What is no session is refused 8, after the policy's test.
fn no_session(policy: &[u8]) -> u32
    ensures { result ≡ no_session_reply (policy_refusal policy.now) }
{
    match check(policy) {
        Ok(()) => reply::of_refusal(Refusal::Unsound),
        Err(refusal) => reply::of_policy(refusal),
    }
}
