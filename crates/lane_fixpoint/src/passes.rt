// One pass over the rules of a level, for all lanes at once.
ghost use Rattle.std.specs.Prelude.{◌≡◌, ◌-◌, ◌<◌};
ghost use Rattle.std.specs.Int.Bits.{bit_and, bit_or};
ghost use Rattle.arrays.specs.Arrays.{OneAtom, Span};
ghost use Rattle.lane_fixpoint.specs.Firing.{Fired};
ghost use Rattle.lane_fixpoint.specs.Passes.{Covers, Passed, Satisfied, Stale, Stepped};

use crate::bodies::having_all;
use arrays::RuleArrays;
use atoms::AtomSet;
use lane_table::table::LaneTable;

// Which atoms some lane may have, and which of them this pass has added to some lane.
#[derive(Clone, Copy)]
pub struct Progress {
    pub possible: u64,
    pub added: u64,
}

// The rules at places `from` to `to`, after a pass that came as far as `before`.
pub fn pass<'a>(
    table: &'a mut LaneTable,
    rules: &'a RuleArrays,
    from: usize,
    to: usize,
    before: Progress,
    initial: u64,
) -> Progress
    requires placed { Span from to rules.now.heads }
    requires covered { Covers before.possible table.old.words
        × Stale rules.now.heads rules.now.positive from to before.added initial table.old.words }
    ensures { Passed rules.now.heads rules.now.positive from (to - from) table.old.words table.new.words result }
{
    let mut progress = Progress {
        possible: before.possible,
        added: 0,
    };
    for k in from..to {
        let head = rules.heads[k];
        let all = rules.positive[k];
        progress = step(table, k, head, all, before.added, initial, progress);
    }
    progress
}

// The rule at place k. It is passed over where an atom of its body is in no lane, and where none was added since it was last looked at: `delta` was added
// by the pass before, and `initial` is 0 but in the first pass. It is a number, for one test with `delta`.
fn step(
    table: &mut LaneTable,
    k: usize,
    head: u64,
    positive: u64,
    delta: u64,
    initial: u64,
    progress: Progress,
) -> Progress
    requires fireable { (k < 128) × OneAtom head }
    requires covered { Covers progress.possible table.old.words
        × (initial ≡ 0 → bit_and positive (bit_or delta progress.added) ≡ 0 → Satisfied k head positive table.old.words) }
    ensures { Stepped k head positive progress result table.old.words table.new.words }
{
    let possible = progress.possible;
    let added = progress.added;
    if positive & !possible != 0 {
        return progress;
    }
    if (positive & (delta | added)) | initial == 0 {
        return progress;
    }
    if fire(table, k, head, positive) {
        return Progress {
            possible: possible | head,
            added: added | head,
        };
    }
    progress
}

// The rule at place k adds its head in each lane where its body holds: whether it is new in any.
fn fire(table: &mut LaneTable, k: usize, head: u64, positive: u64) -> bool
    requires { (k < 128) × OneAtom head }
    ensures { Fired k head positive table.old.words table.new.words result }
{
    let body = having_all(table, AtomSet { bits: positive }, table.load(64 + k));
    let at = head.trailing_zeros() as usize;
    let old = table.load(at);
    table.store(at, old.union(body));
    !body.intersection(old.complement()).is_empty()
}
