// Levels that the gate finds itself (document 02, R-4: "The gate finds levels itself.").
#![tactic(auto)]

ghost use Rattle.records.specs.Records.{access_kind, rules_of};
ghost use Rattle.levels.specs.Levels.{AccessHeads, Found};

use layers::layered;
use rows::rows_of;

mod graph;
mod layers;
mod rows;
mod settle;
mod walk;

// Levels for a policy's access rules, a level for each atom, or that there are none.
pub fn find_levels(policy: &[u8]) -> Option<[u8; 64]>
    requires { AccessHeads policy.now }
    ensures { Found (rules_of access_kind policy.now) result }
{
    let rows = rows_of(policy);
    let layers = layered(&rows.bodies, rows.heads);
    let found = rows.test(&layers);
    if found { Some(layers.of) } else { None }
}
