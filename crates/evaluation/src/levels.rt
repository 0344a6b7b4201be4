// The model from rules laid out by level.
ghost use Rattle.std.specs.Prelude.{◌≡◌};
ghost use Rattle.rules.specs.Unlocking.{grants};
ghost use Rattle.arrays.specs.Arrays.{evaluated, level_count};

use crate::closure::close;
use arrays::{LEVELS, LevelRules};
use atoms::{AtomSet, VIOLATION};

// Level by level, as far as there are rules: each is finished before the next one begins.
pub fn evaluate(rules: &LevelRules, credentials: AtomSet) -> AtomSet
    ensures { result.bits ≡ evaluated level_count rules.now.rules.now.heads rules.now.rules.now.positive rules.now.rules.now.negated
        rules.now.starts.now credentials.bits }
{
    let starts = rules.starts;
    let end = starts[LEVELS];
    let mut set = credentials;
    for level in 0..LEVELS {
        let from = starts[level];
        if from == end {
            break;
        }
        set = close(rules.rules, from, starts[level + 1], set);
    }
    set
}

// The request is in the model and atom 63 is not.
pub fn unlocks(rules: &LevelRules, request: u8, credentials: AtomSet) -> bool
    ensures { result ≡ grants request
        (evaluated level_count rules.now.rules.now.heads rules.now.rules.now.positive rules.now.rules.now.negated rules.now.starts.now
        credentials.bits) }
{
    let model = evaluate(rules, credentials);
    model.contains(request) && !model.contains(VIOLATION)
}
