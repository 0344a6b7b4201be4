// The tests of one record: refusals 3 to 5, 12 and 13.
ghost use Rattle.std.specs.Prelude.{◌≡◌, [], ◌∷◌};
ghost use Rattle.validation.specs.Tests.{first_failed};
ghost use Rattle.records.specs.Types.{record_of};
ghost use Rattle.form.specs.PolicyTest.{AnswersRecord, access_body, access_head, at_record, credential_head, disclosure_body};
ghost use Rattle.policy.specs.Types.{checked_of};

use crate::refusal::Refusal;
use crate::weights::{weight_body, weight_failed};
use atoms::{AtomSet, FIRST_DERIVED, LAST_CREDENTIAL, VIOLATION};
use records::{Kind, Record};

// The test of record k, where the records before it weigh these credentials.
pub(crate) fn check_record(parsed: Record, k: u8, weighed: AtomSet) -> Result<(), Refusal>
    ensures { AnswersRecord weighed.bits (record_of parsed) k (checked_of result) }
{
    let Ok(kind) = Kind::try_from(parsed.kind) else {
        return Err(Refusal::Kind(k));
    };
    match kind {
        Kind::Access => first_failed(access_head(parsed), access_body(parsed), k),
        Kind::Disclosure => first_failed(credential_head(parsed), disclosure_body(parsed), k),
        Kind::Weight => weight_failed(
            credential_head(parsed),
            weight_body(parsed),
            !weighed.contains(parsed.head),
            k,
        ),
    }
}

// The refusal of the first test that fails, at record k. Not one with `weight_failed`, which has other refusals.
#[tactic(auto, unfolding(validation::specs::Tests::first_failed, validation::specs::Tests::relabelled))]
fn first_failed(head: bool, body: bool, k: u8) -> Result<(), Refusal>
    ensures { checked_of result ≡ first_failed (at_record k ((head, 4) ∷ (body, 5) ∷ [])) }
{
    if !head {
        return Err(Refusal::Head(k));
    }
    if !body {
        return Err(Refusal::Body(k));
    }
    Ok(())
}

// 16 to 63.
fn access_head(parsed: Record) -> bool
    ensures { result ≡ access_head (record_of parsed).rule }
{
    FIRST_DERIVED <= parsed.head && parsed.head <= VIOLATION
}

// Atom 63 on neither side.
fn access_body(parsed: Record) -> bool
    ensures { result ≡ access_body (record_of parsed).rule }
{
    !parsed.positive.contains(VIOLATION) && !parsed.negated.contains(VIOLATION)
}

// 0 to 15.
fn credential_head(parsed: Record) -> bool
    ensures { result ≡ credential_head (record_of parsed).rule }
{
    parsed.head <= LAST_CREDENTIAL
}

// Only credentials, none negated.
fn disclosure_body(parsed: Record) -> bool
    ensures { result ≡ disclosure_body (record_of parsed).rule }
{
    parsed.positive.bits < 0x1_0000 && parsed.negated.bits == 0
}
