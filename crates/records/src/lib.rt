// What a policy's bytes say: records, read and written (document 01, "Atoms and records"; weights: document 02, R-2).
#![tactic(auto)]

ghost use Rattle.std.specs.Prelude.{◌≡◌, ◌*◌, ◌+◌, ◌≤◌, length};
ghost use Rattle.encoding.specs.LittleEndian.{little_endian};
ghost use Rattle.records.specs.Records.{read_part, record_at};
ghost use Rattle.records.specs.Types.{record_of};

use atoms::AtomSet;

mod kind;

pub use kind::{ACCESS, DISCLOSURE, Kind, UnknownKind, WEIGHT};

// A policy's record.
#[derive(Clone, Copy)]
pub struct Record {
    pub kind: u8,
    pub head: u8,
    // The atoms that must hold.
    pub positive: AtomSet,
    // The atoms that must not.
    pub negated: AtomSet,
}

// Record k of a policy that has it.
pub fn record_at(policy: &[u8], k: usize) -> Record
    requires { 18 * k + 18 ≤ length policy.now }
    ensures { record_of result ≡ record_at policy.now k }
{
    read_record(&policy[18 * k..18 * k + 18])
}

// The record that the first 18 bytes say; of fewer bytes a blank one, whose kind is 0.
#[tactic(auto, unfolding(crate::specs::Records::read_record))]
pub fn read_record(bytes: &[u8]) -> Record
    ensures answer { record_of result ≡ read_part bytes.now }
    ensures unchanged { bytes.now ≡ bytes.now }
{
    if bytes.len() < 18 {
        return Record {
            kind: 0,
            head: 0,
            positive: AtomSet::EMPTY,
            negated: AtomSet::EMPTY,
        };
    }
    Record {
        kind: bytes[0],
        head: bytes[1],
        positive: set_of(&bytes[2..10]),
        negated: set_of(&bytes[10..18]),
    }
}

// The set whose number eight bytes give, little-endian.
#[tactic(auto, using(encoding::proofs::StdLaws::from_le_8))]
fn set_of(bytes: &[u8]) -> AtomSet
    requires { length bytes.now ≡ 8 }
    ensures { result.bits ≡ little_endian bytes.now }
{
    AtomSet {
        bits: u64::from_le_bytes(bytes.try_into().unwrap()),
    }
}
