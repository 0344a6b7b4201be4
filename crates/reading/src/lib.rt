// Reading until there is no room left.
#![tactic(auto)]

ghost use Rattle.std.specs.Prelude.{ℕ, take};
ghost use Rattle.std.specs.Int.{to_le_bytes, w16};
ghost use Rattle.std.specs.Counts.{IsPrefixLen};
ghost use Rattle.std.specs.Io.KnownBytes.{Consumes};

use std::io::Read;

// Reads until there is no room left, the input ends or a read fails, and says how many bytes there are: the next ones of the input, in its order.
// Std's `read_exact` says nothing of what it read before an error, and what one read adds is known only then, so this is a `while`.
pub fn read_full<R: Read>(input: &mut R, space: &mut [u8]) -> usize
    ensures prefix { IsPrefixLen result space.new }
    ensures bytes { Consumes (R.remaining input.old) (R.remaining input.new) (take result space.new) }
{
    let mut done = 0;
    while done < space.len() {
        let n = read_some(input, &mut space[done..]);
        if n == 0 {
            break;
        }
        done += n;
    }
    done
}

// One read; 0 where the input ends or the read fails.
fn read_some<R: Read>(input: &mut R, space: &mut [u8]) -> usize
    ensures prefix { IsPrefixLen result space.new }
    ensures bytes { Consumes (R.remaining input.old) (R.remaining input.new) (take result space.new) }
{
    input.read(space).unwrap_or(0)
}

// The next N bytes; 0 in place of those that the input no longer has.
pub fn next<const N: usize, R: Read>(input: &mut R) -> [u8; N]
    ensures { (got : ℕ) × Consumes (R.remaining input.old) (R.remaining input.new) (take got result) }
{
    let mut bytes = [0u8; N];
    read_full(input, &mut bytes);
    bytes
}

// The number whose two bytes come next, little-endian.
pub fn number<R: Read>(input: &mut R) -> u16
    ensures { (got : ℕ) × Consumes (R.remaining input.old) (R.remaining input.new) (take got (to_le_bytes w16 result)) }
{
    u16::from_le_bytes(next(input))
}
