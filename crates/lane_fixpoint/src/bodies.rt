// The lanes whose sets have all atoms, or any atom, of a rule's body.
ghost use Rattle.lane_fixpoint.specs.Firing.{HavingAll, HavingAny};

use atoms::AtomSet;
use lane_table::lane_set::LaneSet;
use lane_table::table::LaneTable;

// Of the lanes in `among`, those that have all of the atoms.
#[tactic(auto, using(atoms::proofs::ListedLaws::first_low))]
pub fn having_all(table: &LaneTable, atoms: AtomSet, among: LaneSet) -> LaneSet
    ensures { HavingAll table.now.words atoms.bits among result }
{
    let mut held = among;
    for k in atoms.members() {
        held = held.intersection(table.load(k));
    }
    held
}

// The lanes that have any of the atoms.
#[tactic(auto, using(atoms::proofs::ListedLaws::first_low))]
pub fn having_any(table: &LaneTable, atoms: AtomSet) -> LaneSet
    ensures { HavingAny table.now.words atoms.bits result }
{
    let mut hit = LaneSet::splat(0);
    for k in atoms.members() {
        hit = hit.union(table.load(k));
    }
    hit
}
