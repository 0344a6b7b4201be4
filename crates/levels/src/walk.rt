// The walk from atom to atom.
ghost use Rattle.std.specs.Prelude.{◌≡◌, ◌≢◌, ◌<◌};
ghost use Rattle.levels.specs.Walks.{Entered, Stepped, Walking};

use crate::graph::needs_of;
use crate::layers::Layers;
use atoms::AtomSet;

// `under[i]` has the atoms of the components before component i. The atoms that no walk has met, the number of components on the walk, and that of levels.
#[derive(Clone, Copy)]
pub struct Walk {
    pub under: [u64; 65],
    pub fresh: AtomSet,
    pub depth: usize,
    pub count: usize,
}

impl Walk {
    // The last component is looked at: if it depends on an earlier one, the last two become one; if on a fresh atom, that is entered; else it is settled.
    pub(crate) fn step(&mut self, rows: &[u64; 64], layers: &mut Layers)
        requires { Walking rows.now self.old layers.old.of layers.old.at × (self.old.depth ≡ 0 → self.old.fresh.bits ≢ 0) }
        ensures { Stepped rows.now self.old layers.new.of layers.new.at self.new }
    {
        let depth = self.depth;
        let fresh = self.fresh;
        if depth == 0 {
            self.enter(fresh);
            return;
        }
        let last = depth - 1;
        let all = self.under[depth];
        let below = self.under[last];
        let path = AtomSet { bits: all };
        let members = path.difference(AtomSet { bits: below });
        let outside = needs_of(rows, members).difference(members);
        if !outside.is_disjoint(path) {
            self.under[last] = all;
            self.depth = last;
            return;
        }
        let open = outside.intersection(fresh);
        if open != AtomSet::EMPTY {
            self.enter(open);
            return;
        }
        self.depth = last;
        self.count = layers.settle(members, outside, self.count);
    }

    // The lowest atom of a set becomes a component.
    fn enter(&mut self, among: AtomSet)
        requires { (self.old.depth < 64) × (among.bits ≢ 0) }
        ensures { Entered self.old among.bits self.new }
    {
        let own = AtomSet::one(among.bits.trailing_zeros() as u8);
        let depth = self.depth;
        let path = AtomSet {
            bits: self.under[depth],
        };
        self.under[depth + 1] = path.union(own).bits;
        self.fresh = self.fresh.difference(own);
        self.depth = depth + 1;
    }
}
