// One level after another, for all lanes at once.
ghost use Rattle.arrays.specs.Arrays.{level_count};
ghost use Rattle.lane_fixpoint.specs.Passes.{Covers};
ghost use Rattle.lanes.specs.Levels.{Evaluated};

use arrays::{LEVELS, LevelRules};
use lane_table::table::LaneTable;

// Level by level, as far as there are rules: each is finished before the next one begins. No lane has an atom outside `possible`. `evaluation` has the same loop
// over one set: a function for both would take a closure for a level, with clauses on what it makes of the sets, and be longer than the two.
pub fn evaluate<'a>(table: &'a mut LaneTable, rules: &'a LevelRules, possible: u64)
    requires { Covers possible table.old.words }
    ensures { Evaluated level_count rules.now.rules.now.heads rules.now.rules.now.positive rules.now.rules.now.negated
        rules.now.starts.now table.old.words table.new.words }
{
    let end = rules.starts[LEVELS];
    let mut reached = possible;
    for level in 0..LEVELS {
        let from = rules.starts[level];
        if from >= end {
            return;
        }
        let to = rules.starts[level + 1];
        let fixpoint = lane_fixpoint::close(table, rules.rules, from, to, reached);
        reached = fixpoint.possible;
    }
}
