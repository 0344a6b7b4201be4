// The model of a policy (document 01, "The model").
#![tactic(auto)]

ghost use Rattle.std.specs.Prelude.{◌≡◌};
ghost use Rattle.rules.specs.Model.{model};
ghost use Rattle.records.specs.Policies.{policy_of};
ghost use Rattle.policy.specs.Types.{AcceptedWith};
ghost use Rattle.model.specs.Answers.{model_answer};
ghost use Rattle.model.specs.Theorems.{GivesModel};
ghost use Rattle.model.specs.Types.{modelled_of};

use arrays::{LevelRules, RuleArrays};
use atoms::AtomSet;
use evaluation::levels::evaluate;
use layout::access_rules;
use policy::examine;
use policy::refusal::Refusal;

// The model of a policy and a set of credentials, or the policy's refusal and no set.
pub fn model(policy: &[u8], credentials: u16) -> Result<AtomSet, Refusal>
    ensures answer { modelled_of result ≡ model_answer policy.now credentials }
    ensures meaning { GivesModel policy.now credentials (modelled_of result) }
    ensures unchanged { policy.now ≡ policy.now }
{
    let examined = examine(policy);
    let Ok(levels) = examined else {
        return Err(examined.unwrap_err());
    };
    Ok(model_of(policy, &levels, credentials))
}

// The model of an accepted policy, whose access rules keep these levels.
fn model_of(policy: &[u8], levels: &[u8; 64], credentials: u16) -> AtomSet
    requires { AcceptedWith policy.now levels.now }
    ensures { result.bits ≡ model (policy_of policy.now).access credentials }
{
    let mut laid = RuleArrays::EMPTY;
    let starts = access_rules(policy, levels, &mut laid);
    let rules = LevelRules {
        rules: &laid,
        starts: &starts,
    };
    evaluate(&rules, AtomSet::credentials(credentials))
}
