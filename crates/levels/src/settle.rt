// A component gets its level.
ghost use Rattle.std.specs.Prelude.{◌≡◌, ◌+◌, ◌<◌, ◌≤◌, length};
ghost use Rattle.levels.specs.Walks.{Lowest, Marked, Placed};

use crate::layers::Layers;
use atoms::AtomSet;

impl Layers {
    // The lowest level above every atom outside the component that its rows have. The answer is the number of levels.
    pub(crate) fn settle(&mut self, members: AtomSet, outside: AtomSet, count: usize) -> usize
        requires { count ≤ 64 }
        ensures { Placed self.old.of self.old.at members.bits outside.bits count self.new.of self.new.at result }
    {
        let level = over(&self.at, count, outside);
        // The cast is proved to lose nothing: `u8::try_from` would bring an arm that cannot be.
        mark(&mut self.of, members, level as u8);
        let on = AtomSet {
            bits: self.at[level],
        };
        self.at[level] = on.union(members).bits;
        count.max(level + 1)
    }
}

// The first level above all that have an atom of the set.
#[tactic(auto, using(atoms::proofs::SetLaws::meets))]
fn over(at: &[u64; 65], count: usize, set: AtomSet) -> usize
    requires { count ≤ 64 }
    ensures { Lowest at.now count set.bits result }
{
    for level in (0..count).rev() {
        let on = AtomSet { bits: at[level] };
        if !on.is_disjoint(set) {
            return level + 1;
        }
    }
    0
}

// This level for each member.
#[tactic(auto, using(atoms::proofs::ListedLaws::first_low))]
fn mark(of: &mut [u8; 64], members: AtomSet, level: u8)
    requires { length of.old ≡ 64 }
    ensures { Marked of.old members.bits level of.new }
{
    for k in members.members() {
        of[k] = level;
    }
}
