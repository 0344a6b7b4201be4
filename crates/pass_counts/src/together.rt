// The access rules, closed over level by level from 256 sets at once.
use crate::start::fill;
use arrays::{LEVELS, LevelRules};
use lane_table::table::LaneTable;

// Prints the count of each level. Lane j begins with the credentials, their low eight bits replaced by j.
pub(crate) fn closed(rt: &impl Print, rules: &LevelRules, credentials: u16) {
    let mut table = LaneTable::EMPTY;
    fill(&mut table, credentials);
    let _ = print!(rt; " together");
    levels(rt, &mut table, rules);
}

// One level after another, as far as there are rules: the loop of `lanes` hands out no count.
fn levels(rt: &impl Print, table: &mut LaneTable, rules: &LevelRules) {
    let end = rules.starts[LEVELS];
    for level in 0..LEVELS {
        let from = rules.starts[level];
        if from == end {
            break;
        }
        let to = rules.starts[level + 1];
        let fixpoint = lane_fixpoint::close(table, rules.rules, from, to, u64::MAX);
        let _ = print!(rt; " {}", fixpoint.passes);
    }
}
