// The levels of all atoms.
ghost use Rattle.levels.specs.Graphs.{Headless, Layered};

use crate::walk::Walk;
use atoms::AtomSet;

// The level of each atom, and the atoms of each level.
#[derive(Clone, Copy)]
pub struct Layers {
    pub of: [u8; 64],
    pub at: [u64; 65],
}

// Atoms that head no rule are on level 0; the others are walked to.
pub(crate) fn layered(rows: &[u64; 64], heads: AtomSet) -> Layers
    requires { Headless rows.now heads.bits }
    ensures { Layered rows.now result.of result.at }
{
    let mut layers = Layers {
        of: [0u8; 64],
        at: [0u64; 65],
    };
    let all = AtomSet { bits: u64::MAX };
    layers.at[0] = all.difference(heads).bits;
    let mut walk = Walk {
        under: [0u64; 65],
        fresh: heads,
        depth: 0,
        count: 1,
    };
    // How many steps there are is not known before: no range counts them.
    while walk.fresh.bits | walk.under[walk.depth] != 0 {
        walk.step(rows, &mut layers);
    }
    layers
}
