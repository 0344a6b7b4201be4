// The disclosable set of a policy (document 01, "Disclosure").
#![tactic(auto)]

ghost use Rattle.std.specs.Prelude.{◌≡◌};
ghost use Rattle.records.specs.Policies.{policy_of};
ghost use Rattle.form.specs.WrittenForm.{WellFormed};
ghost use Rattle.disclosure.specs.Answers.{disclosable_answer};
ghost use Rattle.disclosure.specs.Disclosure.{disclosable};
ghost use Rattle.disclosure.specs.Theorems.{GivesDisclosable};
ghost use Rattle.disclosure.specs.Types.{disclosed_of};

use arrays::RuleArrays;
use atoms::AtomSet;
use evaluation::closure::close;
use layout::listed::list;
use policy::check;
use policy::refusal::Refusal;
use records::DISCLOSURE;

// The disclosable set of a policy and a shown set, or the policy's refusal and no set.
pub fn disclosable(policy: &[u8], shown: u16) -> Result<u16, Refusal>
    ensures answer { disclosed_of result ≡ disclosable_answer policy.now shown }
    ensures meaning { GivesDisclosable policy.now shown (disclosed_of result) }
    ensures unchanged { policy.now ≡ policy.now }
{
    let Err(refusal) = check(policy) else {
        return Ok(disclosable_of(policy, shown));
    };
    Err(refusal)
}

// The disclosable set of an accepted policy. Not inlined: a round would keep the 3 KB of its rules on the stack through the search.
#[inline(never)]
#[tactic(auto, using(crate::proofs::AcceptedLaws::settled_disclosable, crate::proofs::AcceptedLaws::low_disclosable, encoding::proofs::ByteLaws::slice_bytes))]
pub fn disclosable_of(policy: &[u8], shown: u16) -> u16
    requires { WellFormed policy.now }
    ensures { result ≡ disclosable (policy_of policy.now) shown }
{
    let mut disclosure = RuleArrays::EMPTY;
    let count = list(policy, DISCLOSURE, &mut disclosure);
    let start = AtomSet::credentials(shown);
    let closed = close(&disclosure, 0, count, start);
    closed.bits as u16
}
