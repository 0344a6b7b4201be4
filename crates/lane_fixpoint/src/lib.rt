// Rules closed over in 256 lanes at once, each lane one bit of every row of a table: passes until one adds nothing to any lane, and their count (document 02,
// R-3). "callers see no count": `lanes` drops it, and only a program that prints counts calls this crate beside.
#![tactic(auto)]

ghost use Rattle.std.specs.Prelude.{◌≡◌, ◌-◌, ◌≤◌};
ghost use Rattle.arrays.specs.Arrays.{Span, rules_in};
ghost use Rattle.lane_fixpoint.specs.Closure.{LanesClosedIn, LevelClosed, Reduced, lane_pass_count};
ghost use Rattle.lane_fixpoint.specs.Passes.{Covers};

use arrays::RuleArrays;
use atoms::AtomSet;
use bodies::having_any;
use lane_table::table::LaneTable;
use passes::{Progress, pass};

mod bodies;
mod passes;

// Sets that a pass has left as they were: which atoms some lane may have, and the count of passes up to that one.
#[derive(Clone, Copy)]
pub struct Fixpoint {
    pub possible: u64,
    pub passes: u8,
}

// The rules of one level: "not" is read first, then passes are made until one is idle. No lane has an atom outside `possible`: a clause, and no fact that the
// table keeps beside its words, since a row is written before `possible` is. What a pass adds ends the loop, so that it is no `for`.
#[tactic(auto, using(crate::proofs::CloseLaws::idle_each, crate::proofs::CloseLaws::idle_passes))]
pub fn close<'a>(
    table: &'a mut LaneTable,
    rules: &'a RuleArrays,
    from: usize,
    to: usize,
    possible: u64,
) -> Fixpoint
    requires placed { Span from to rules.now.heads }
    requires covered { Covers possible table.old.words }
    ensures level { LevelClosed rules.now.heads rules.now.positive rules.now.negated from (to - from)
        table.old.words table.new.words result.possible }
    ensures passes { result.passes
        ≡ lane_pass_count (rules_in rules.now.heads rules.now.positive rules.now.negated from (to - from)) table.old.words }
    ensures count { LanesClosedIn (rules_in rules.now.heads rules.now.positive rules.now.negated from (to - from))
        table.old.words table.new.words result.passes }
{
    reduce(table, rules, from, to, possible);
    let mut progress = Progress { possible, added: 0 };
    let mut initial: u64 = 1;
    let mut passes: u8 = 0;
    loop {
        progress = pass(table, rules, from, to, progress, initial);
        passes += 1;
        if progress.added == 0 {
            return Fixpoint {
                possible: progress.possible,
                passes,
            };
        }
        initial = 0;
    }
}

// Row 64 + k becomes the lanes whose reduct has rule k: nothing that it negates holds there. What no lane has is not looked for.
fn reduce(table: &mut LaneTable, rules: &RuleArrays, from: usize, to: usize, possible: u64)
    requires places { (from ≤ to) × (to ≤ 128) }
    requires covered { Covers possible table.old.words }
    ensures { Reduced rules.now.negated from to table.old.words table.new.words }
{
    for k in from..to {
        let none = rules.negated[k];
        let met = AtomSet {
            bits: none & possible,
        };
        let hit = having_any(table, met);
        table.store(64 + k, hit.complement());
    }
}
