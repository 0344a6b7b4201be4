// The writer of records.
#![tactic(auto)]

ghost use Rattle.std.specs.Prelude.{◌≡◌, ◌*◌, ◌+◌, ◌≤◌, length};
ghost use Rattle.records.specs.Types.{record_of};
ghost use Rattle.records.specs.Writing.{with_record, write_record};

use records::Record;

// Writes a record into a policy's bytes as record k, which they have room for.
#[tactic(auto, using(crate::proofs::PlaceLaws::put_record))]
pub fn write_record(policy: &mut [u8], k: usize, written: Record)
    requires { 18 * k + 18 ≤ length policy.old }
    ensures { policy.new ≡ with_record policy.old k (record_of written) }
{
    policy[18 * k..18 * k + 18].copy_from_slice(&record_bytes(written));
}

// The 18 bytes of a record.
pub fn record_bytes(written: Record) -> [u8; 18]
    ensures { result ≡ write_record (record_of written) }
{
    let mut bytes = [0u8; 18];
    bytes[0] = written.kind;
    bytes[1] = written.head;
    bytes[2..10].copy_from_slice(&written.positive.bits.to_le_bytes());
    bytes[10..18].copy_from_slice(&written.negated.bits.to_le_bytes());
    bytes
}
