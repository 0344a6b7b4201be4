// The weights among the records: their tests, and which credentials they weigh (document 02, R-2).
ghost use Rattle.std.specs.Prelude.{◌≡◌, List, [], ◌++◌, ◌∷◌, ◌≤◌};
ghost use Rattle.validation.specs.Tests.{first_failed};
ghost use Rattle.atoms.specs.Atoms.{violation};
ghost use Rattle.records.specs.Records as R;
ghost use Rattle.records.specs.Types.{record_of};
ghost use Rattle.form.specs.PolicyTest.{Weighed, at_record, weight_body};
ghost use Rattle.policy.specs.Types.{checked_of};

use crate::refusal::Refusal;
use atoms::AtomSet;
use records::{Record, WEIGHT};

// The refusal of the first test of a weight that fails, at record k.
#[tactic(auto, unfolding(validation::specs::Tests::first_failed, validation::specs::Tests::relabelled))]
pub(crate) fn weight_failed(head: bool, body: bool, first: bool, k: u8) -> Result<(), Refusal>
    ensures { checked_of result ≡ first_failed (at_record k ((head, 4) ∷ (body, 12) ∷ (first, 13) ∷ [])) }
{
    if !head {
        return Err(Refusal::Head(k));
    }
    if !body {
        return Err(Refusal::Weight(k));
    }
    if !first {
        return Err(Refusal::SecondWeight(k));
    }
    Ok(())
}

// A weight of 0 to 15, and no negated set.
pub(crate) fn weight_body(parsed: Record) -> bool
    ensures { result ≡ weight_body (record_of parsed).rule }
{
    parsed.positive.bits <= 15 && parsed.negated.bits == 0
}

// The weighed credentials with one record more, whose head is an atom.
#[tactic(auto, using(crate::proofs::WeighedLaws::weighed_same))]
pub(crate) fn with_weighed(weighed: AtomSet, parsed: Record) -> AtomSet
    requires { parsed.head ≤ violation }
    ensures { (ds : List R.Record) → Weighed ds weighed.bits → Weighed (ds ++ (record_of parsed ∷ [])) result.bits }
{
    if parsed.kind != WEIGHT {
        return weighed;
    }
    weighed.union(AtomSet::one(parsed.head))
}
