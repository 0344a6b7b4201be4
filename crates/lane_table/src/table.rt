// A table of 192 rows, each a set of lanes.
ghost use Rattle.std.specs.Prelude.{◌<◌};
ghost use Rattle.lane_table.specs.Tables.{Loaded, Stored};

use crate::lane_set::LaneSet;

// Row k is words 4 k to 4 k + 3. The empty array has the table begin at a multiple of 16 bytes: a row that lies across two lines of the cache is read slower, and
// without it searches took some 5 % longer.
#[derive(Clone, Copy)]
pub struct LaneTable {
    pub words: [u64; 768],
    pub aligned: [u128; 0],
}

impl LaneTable {
    // Every lane's set is empty.
    pub const EMPTY: LaneTable = LaneTable {
        words: [0; 768],
        aligned: [],
    };

    pub fn load(&self, k: usize) -> LaneSet
        requires { k < 192 }
        ensures { Loaded self.now.words k result }
    {
        let at = 4 * k;
        let a = self.words[at];
        let b = self.words[at + 1];
        let c = self.words[at + 2];
        let d = self.words[at + 3];
        LaneSet { a, b, c, d }
    }

    pub fn store(&mut self, k: usize, row: LaneSet)
        requires { k < 192 }
        ensures { Stored k row self.old.words self.new.words }
    {
        let at = 4 * k;
        self.words[at] = row.a;
        self.words[at + 1] = row.b;
        self.words[at + 2] = row.c;
        self.words[at + 3] = row.d;
    }
}
