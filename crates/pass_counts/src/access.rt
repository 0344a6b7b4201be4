// The access rules, closed over level by level from one set.
use arrays::{LEVELS, LevelRules};
use atoms::AtomSet;
use fixpoint::close;

// Prints the count of each level, and then the model.
pub(crate) fn closed(rt: &impl Print, rules: &LevelRules, credentials: AtomSet) {
    let _ = print!(rt; " access");
    let model = levels(rt, rules, credentials);
    let _ = print!(rt; " model {:016x}", model.bits);
}

// One level after another, as far as there are rules: `evaluation`'s own loop hands out no count.
fn levels(rt: &impl Print, rules: &LevelRules, credentials: AtomSet) -> AtomSet {
    let end = rules.starts[LEVELS];
    let mut set = credentials;
    for level in 0..LEVELS {
        let from = rules.starts[level];
        if from == end {
            break;
        }
        let fixpoint = close(rules.rules, from, rules.starts[level + 1], set);
        let _ = print!(rt; " {}", fixpoint.passes);
        set = fixpoint.set;
    }
    set
}
