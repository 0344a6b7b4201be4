// What the members of a set depend on at once.
ghost use Rattle.levels.specs.Graphs.{Needs};

use atoms::AtomSet;

#[tactic(auto, using(atoms::proofs::ListedLaws::first_low))]
pub(crate) fn needs_of(rows: &[u64; 64], set: AtomSet) -> AtomSet
    ensures { Needs rows.now set.bits result.bits }
{
    let mut needs = AtomSet::EMPTY;
    for h in set.members() {
        let row = AtomSet { bits: rows[h] };
        needs = needs.union(row);
    }
    needs
}
