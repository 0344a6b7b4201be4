// A block of 256 candidates: which of them unlock a request.
ghost use Rattle.arrays.specs.Arrays.{level_count};
ghost use Rattle.lanes.specs.Blocks.{Unlocking};

use crate::candidates::{fill, switch};
use crate::levels::evaluate;
use atoms::VIOLATION;
use lane_table::table::LaneTable;
use preference::Search;

// Candidate 256 b + i is bit i % 64 of word i / 64.
pub fn block(search: &Search, b: usize) -> [u64; 4]
    ensures { Unlocking level_count search.now.rules.now.rules.now.heads search.now.rules.now.rules.now.positive
        search.now.rules.now.rules.now.negated search.now.rules.now.starts.now search.now.request search.now.shown
        search.now.members.now search.now.count b result }
{
    let mut table = LaneTable::EMPTY;
    fill(&mut table, search.shown);
    let possible = switch(&mut table, search, b, search.shown as u64);
    evaluate(&mut table, search.rules, possible);
    let wanted = table.load(search.request as usize);
    let breached = table.load(VIOLATION as usize);
    let granted = wanted.intersection(breached.complement());
    [granted.a, granted.b, granted.c, granted.d]
}
