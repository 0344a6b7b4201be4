// The bench program's input, read a byte at a time; the recording program's is the same.
#![tactic(auto)]

ghost use Rattle.std.specs.Prelude.{◌≡◌, [], ◌∷◌, ℕ, true, IfSome, IsNone};
ghost use Rattle.std.specs.Io.KnownBytes.{Consumes};
ghost use Rattle.transcript.specs.Steps.{byte_step, is_ended};
ghost use Rattle.console.specs.Steps.{reader_of, step_of};

use console::reader::{Reader, Step};
use reading::read_full;
use std::io::Read;

// Waits for a byte and says what it tells; None where nothing more is told, or the input ends.
pub fn next<R: Read>(input: &mut R, policy: &[u8], reader: Reader) -> Option<Step>
    ensures told { IfSome result (λ step. (byte : ℕ) × Consumes (R.remaining input.old) (R.remaining input.new) (byte ∷ [])
        × (step_of step ≡ byte_step policy.now (reader_of reader) byte)) }
    ensures ended { is_ended (reader_of reader) ≡ true → IsNone result }
{
    let mut byte = [0u8; 1];
    if reader.ended() || read_full(input, &mut byte) != 1 {
        return None;
    }
    Some(reader.next(policy, byte[0]))
}
