// Two logs held against each other. The logs are lent and read in place: each byte at most twice, by the test and where the two are compared.
ghost use Rattle.std.specs.Prelude.{◌≡◌, not, position};
ghost use Rattle.std.specs.List.{list_all, zip};
ghost use Rattle.validation.specs.Tests.{first_failed};
ghost use Rattle.logs.specs.Agreement.{agree};
ghost use Rattle.logs.specs.Comparison.{compared, divergence};
ghost use Rattle.logs.specs.Entries.{entries_of, read_entry};
ghost use Rattle.logs.specs.LogForm.{is_sound_entry, log_tests};
ghost use Rattle.logs.specs.Theorems.{Compares};
ghost use Rattle.log_comparison.specs.Types.{compared_of, parted_of, refusal_of, tested_of};

use entries::{ENTRY_BYTES, Entry};

// Why a log is refused.
#[derive(Clone, Copy)]
pub enum Refusal {
    // A length that is not a multiple of 8.
    Length,
    // A record at fault: its answer, its asked set or its pad.
    Record,
}

impl Refusal {
    // Document 02's number of the refusal.
    pub fn number(self) -> u8
        ensures { result ≡ refusal_of self }
    {
        match self {
            Refusal::Length => 10,
            Refusal::Record => 11,
        }
    }
}

// The record where the two logs part, from 0, or none where they agree; or one of them is refused: the first is tested first.
#[tactic(auto, using(crate::proofs::CompareLaws::first_refused, crate::proofs::CompareLaws::second_refused, crate::proofs::CompareLaws::not_refused))]
pub fn compare(first: &[u8], second: &[u8]) -> Result<Option<usize>, Refusal>
    ensures answer { compared_of result ≡ compared first.now second.now }
    ensures meaning { Compares first.now second.now (compared_of result) }
    ensures unchanged { (first.now ≡ first.now) × (second.now ≡ second.now) }
{
    test(first)?;
    test(second)?;
    Ok(diverge(first, second))
}

// The test of one log: its length, then its records.
#[tactic(auto, using(crate::proofs::ChunkLaws::tests_as))]
fn test(log: &[u8]) -> Result<(), Refusal>
    ensures { tested_of result ≡ first_failed (log_tests log.now) }
{
    let (records, rest) = log.as_chunks::<ENTRY_BYTES>();
    if !rest.is_empty() {
        return Err(Refusal::Length);
    }
    if !all_sound(records) {
        return Err(Refusal::Record);
    }
    Ok(())
}

// Where the two part, if they do.
#[tactic(auto, using(crate::proofs::ChunkLaws::parted))]
fn diverge(first: &[u8], second: &[u8]) -> Option<usize>
    ensures { parted_of result ≡ divergence (entries_of first.now) (entries_of second.now) }
{
    let (first, _) = first.as_chunks::<ENTRY_BYTES>();
    let (second, _) = second.as_chunks::<ENTRY_BYTES>();
    let shorter = first.len().min(second.len());
    let ends = (first.len() != second.len()).then_some(shorter);
    first_differing(first, second).or(ends)
}

// The first record that both have where they do not agree.
fn first_differing(first: &[[u8; ENTRY_BYTES]], second: &[[u8; ENTRY_BYTES]]) -> Option<usize>
    ensures { result ≡ position (λ p. not (agree (read_entry p.0) (read_entry p.1))) (zip first.now second.now) }
{
    first
        .iter()
        .zip(second)
        .position(|(one, other)| !agree(one, other))
}

// Whether each record is sound.
fn all_sound(records: &[[u8; ENTRY_BYTES]]) -> bool
    ensures { result ≡ list_all (λ bytes. is_sound_entry (read_entry bytes)) records.now }
{
    records.iter().all(is_sound)
}

fn is_sound(bytes: &[u8; ENTRY_BYTES]) -> bool
    ensures { result ≡ is_sound_entry (read_entry bytes.now) }
{
    Entry::from(*bytes).is_sound()
}

fn agree(one: &[u8; ENTRY_BYTES], other: &[u8; ENTRY_BYTES]) -> bool
    ensures { result ≡ agree (read_entry one.now) (read_entry other.now) }
{
    Entry::from(*one).agrees(Entry::from(*other))
}
