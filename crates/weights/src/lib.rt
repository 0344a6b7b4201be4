// What credentials weigh under a policy (document 02, R-2).
#![tactic(auto)]

ghost use Rattle.rules.specs.Weights.{WeightTable};
ghost use Rattle.records.specs.Policies.{policy_of};
ghost use Rattle.form.specs.WrittenForm.{WellFormed};

use records::{WEIGHT, record_at};

// The weights of the sixteen credentials under an accepted policy, which names none twice.
pub fn weight_table(policy: &[u8]) -> [u8; 16]
    requires { WellFormed policy.now }
    ensures { WeightTable (policy_of policy.now) result }
{
    // Unnamed ones weigh 1.
    let mut weights = [1u8; 16];
    for k in (0..policy.len() / 18).rev() {
        // Its first byte tells a weight: other records are not read.
        if policy[18 * k] == WEIGHT {
            let parsed = record_at(policy, k);
            weights[parsed.head as usize] = parsed.positive.bits as u8;
        }
    }
    weights
}
