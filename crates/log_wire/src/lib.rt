// Logs in bytes and numbers, for C: the record of a round, and two logs held against each other (session_logs' specs/Exports says which).
#![tactic(auto)]

ghost use Rattle.std.specs.Prelude.{◌≡◌};
ghost use Rattle.logs.specs.Comparison.{compared};
ghost use Rattle.session_logs.specs.Exports.{comparison_reply, place_after, record_call};

use entries::ENTRY_BYTES;
use log_comparison::compare::compare;
use recorder::reply::{SESSION_BYTES, of_reply};

// What gate_compare_logs replies to C, where it is no refusal's number: the logs agree.
const DONE: u32 = 0;

// The logs part.
const PART: u32 = 0x400;

// The record of a round, written unless the round was refused; the number of bytes written comes back.
#[tactic(auto, unfolding(session_logs::specs::Exports::record_call))]
pub fn write_record(
    shown: u16,
    reply: u32,
    session: &[u8; SESSION_BYTES],
    bytes: &mut [u8; ENTRY_BYTES],
) -> usize
    ensures answer { result ≡ (record_call shown reply session.now bytes.old).reply }
    ensures written { bytes.new ≡ (record_call shown reply session.now bytes.old).leaves }
    ensures unchanged { session.now ≡ session.now }
{
    let Some(record) = of_reply(shown, reply, session) else {
        return 0;
    };
    *bytes = record;
    ENTRY_BYTES
}

// The comparison of two logs; the record where they part is written if they do.
pub fn compare_logs(first: &[u8], second: &[u8], place: &mut usize) -> u32
    ensures answer { result ≡ comparison_reply (compared first.now second.now) }
    ensures written { place.new ≡ place_after (compared first.now second.now) place.old }
    ensures unchanged { (first.now ≡ first.now) × (second.now ≡ second.now) }
{
    match compare(first, second) {
        Ok(None) => DONE,
        Ok(Some(k)) => {
            *place = k;
            PART
        }
        Err(refusal) => u32::from(refusal.number()),
    }
}
