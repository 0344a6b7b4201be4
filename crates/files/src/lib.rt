// Files by name, as much of them as there is room for.
#![tactic(auto)]

ghost use Rattle.std.specs.Prelude.{◌≡◌, IfSome, length};
ghost use Rattle.std.specs.Counts.{IsPrefixLen};
ghost use Rattle.transcript.specs.Events.{policy_bytes};

use reading::read_full;
use std::fs;
use std::io::Read;
use std::rt::Files;
use std::str::from_utf8;

// One byte more than any policy has.
pub const POLICY_BYTES: usize = 2305;

// Room for as much of the policy file as is read.
pub fn room() -> [u8; POLICY_BYTES]
    ensures { length result ≡ policy_bytes }
{
    [0u8; POLICY_BYTES]
}

// Reads policy.bin and says how many bytes there are; a file that cannot be read counts as empty.
pub fn policy(rt: &impl Files, space: &mut [u8; POLICY_BYTES]) -> usize
    ensures { IsPrefixLen result space.new }
{
    read(rt, b"policy.bin", space).unwrap_or(0)
}

// Reads until there is no room left or the file ends, and says how many bytes there are; None where it is not opened or a read fails. No name but
// UTF-8 text is opened.
pub fn read(rt: &impl Files, path: &[u8], space: &mut [u8]) -> Option<usize>
    ensures { IfSome result (λ bytes. IsPrefixLen bytes space.new) }
{
    let name = from_utf8(path).ok()?;
    let file = fs::open(rt, name).ok()?;
    fill(file, space)
}

// The same of a file that is open.
fn fill<F: Read + Drop>(mut file: F, space: &mut [u8]) -> Option<usize>
    ensures { IfSome result (λ bytes. IsPrefixLen bytes space.new) }
{
    let bytes = read_full(&mut file, space);
    if bytes == space.len() || at_end(&mut file) {
        Some(bytes)
    } else {
        None
    }
}

// There is nothing more to read, and reading does not fail.
fn at_end(file: &mut impl Read) -> bool {
    let mut byte = [0u8; 1];
    matches!(file.read(&mut byte), Ok(0))
}
