// The candidates of a block, written into a table.
ghost use Rattle.lane_fixpoint.specs.Passes.{Covers};
ghost use Rattle.lanes.specs.Candidates.{Blank, Noted, Switched, Uniform};

use crate::members::takers;
use atoms::AtomSet;
use lane_table::lane_set::LaneSet;
use lane_table::table::LaneTable;
use preference::Search;

// The base in every lane of a table that is all 0.
#[tactic(auto, using(atoms::proofs::ListedLaws::first_low))]
pub fn fill(table: &mut LaneTable, base: u16)
    requires { Blank table.old.words }
    ensures { Uniform base table.new.words }
{
    for k in AtomSet::credentials(base).members() {
        table.store(k, LaneSet::splat(u64::MAX));
    }
}

// Each candidate of block b switches its members. The atoms that some lane may have, before and after.
pub fn switch(table: &mut LaneTable, search: &Search, b: usize, possible: u64) -> u64
    requires { Covers possible table.old.words }
    ensures { Switched search.now.members.now search.now.count b table.old.words table.new.words
        × Covers result table.new.words }
{
    let mut reached = possible;
    for j in 0..search.count {
        let member = search.members[j] as u64;
        let k = member.trailing_zeros() as usize;
        let old = table.load(k);
        let row = old.symmetric_difference(takers(j, b));
        table.store(k, row);
        reached = note(reached, member, row);
    }
    reached
}

// The atoms that some lane may have, once the row of `member` is as it is.
fn note(possible: u64, member: u64, row: LaneSet) -> u64
    ensures { Noted possible member row result }
{
    if row.is_empty() {
        possible & !member
    } else {
        possible | member
    }
}
