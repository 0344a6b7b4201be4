// The policy's test (document 01, "Who can be turned back"; weights: document 02, R-2; levels: R-4).
#![tactic(auto)]

ghost use Rattle.std.specs.Prelude.{◌≡◌, ◌*◌, ◌≤◌, length, IfOk};
ghost use Rattle.validation.specs.Tests.{first_failed};
ghost use Rattle.form.specs.PolicyTest.{policy_refusal, tests_from};
ghost use Rattle.form.specs.Theorems.{Tested};
ghost use Rattle.policy.specs.Types.{AcceptedWith, checked_of};

use atoms::AtomSet;
use levels::find_levels;
use records::record_at;
use refusal::Refusal;
use tests::check_record;
use weights::with_weighed;

pub mod refusal;
mod tests;
mod weights;

// 128 records of 18 bytes.
const MOST_BYTES: usize = 2304;

// The policy's test: accepted, or the first refusal that applies.
#[tactic(auto, using(crate::proofs::WholeLaws::meant, encoding::proofs::ByteLaws::slice_bytes))]
pub fn check(policy: &[u8]) -> Result<(), Refusal>
    ensures answer { checked_of result ≡ policy_refusal policy.now }
    ensures meaning { Tested policy.now (checked_of result) }
    ensures unchanged { policy.now ≡ policy.now }
{
    examine(policy)?;
    Ok(())
}

// The same, with a level for each atom, which an accepted policy's access rules keep.
#[tactic(auto, using(crate::proofs::LoopLaws::too_long, crate::proofs::LoopLaws::not_whole, crate::proofs::LoopLaws::by_record, crate::proofs::WholeLaws::levels_none, encoding::proofs::ByteLaws::slice_bytes))]
pub fn examine(policy: &[u8]) -> Result<[u8; 64], Refusal>
    ensures answer { checked_of result ≡ policy_refusal policy.now }
    ensures levels { IfOk result (λ levels. AcceptedWith policy.now levels) }
    ensures unchanged { policy.now ≡ policy.now }
{
    let bytes = policy.len();
    if bytes > MOST_BYTES {
        return Err(Refusal::TooLong);
    }
    let records = bytes / 18;
    let number = records as u8;
    if bytes % 18 != 0 {
        return Err(Refusal::NotWhole(number));
    }
    check_records(policy, records)?;
    // The last test: the access rules have levels.
    let Some(levels) = find_levels(policy) else {
        return Err(Refusal::Level(number));
    };
    Ok(levels)
}

// The first refusal of the first `records` records, which are there.
fn check_records(policy: &[u8], records: usize) -> Result<(), Refusal>
    requires { (18 * records ≤ length policy.now) × (records ≤ 128) }
    ensures { checked_of result ≡ first_failed (tests_from policy.now 0 records) }
{
    // The credentials that the records before record k weigh.
    let mut weighed = AtomSet::EMPTY;
    for k in 0..records {
        let parsed = record_at(policy, k);
        check_record(parsed, k as u8, weighed)?;
        weighed = with_weighed(weighed, parsed);
    }
    Ok(())
}
