// Sets of lanes: four words, one bit for each of 256 lanes.
ghost use Rattle.lane_table.specs.LaneSets.{Both, Complement, Either, Empty, JustOne, Splat};

// Four words by name, and each operation word by word: over an array each would take a loop with a proof of its own, and a closure that they shared a clause for
// each word.
#[derive(Clone, Copy)]
pub struct LaneSet {
    pub a: u64,
    pub b: u64,
    pub c: u64,
    pub d: u64,
}

impl LaneSet {
    pub fn splat(word: u64) -> LaneSet
        ensures { Splat word result }
    {
        LaneSet {
            a: word,
            b: word,
            c: word,
            d: word,
        }
    }

    pub fn intersection(self, other: LaneSet) -> LaneSet
        ensures { Both self other result }
    {
        LaneSet {
            a: self.a & other.a,
            b: self.b & other.b,
            c: self.c & other.c,
            d: self.d & other.d,
        }
    }

    pub fn union(self, other: LaneSet) -> LaneSet
        ensures { Either self other result }
    {
        LaneSet {
            a: self.a | other.a,
            b: self.b | other.b,
            c: self.c | other.c,
            d: self.d | other.d,
        }
    }

    pub fn symmetric_difference(self, other: LaneSet) -> LaneSet
        ensures { JustOne self other result }
    {
        LaneSet {
            a: self.a ^ other.a,
            b: self.b ^ other.b,
            c: self.c ^ other.c,
            d: self.d ^ other.d,
        }
    }

    pub fn complement(self) -> LaneSet
        ensures { Complement self result }
    {
        LaneSet {
            a: !self.a,
            b: !self.b,
            c: !self.c,
            d: !self.d,
        }
    }

    #[tactic(auto, using(crate::proofs::LaneSetLaws::empty_is))]
    pub fn is_empty(self) -> bool
        ensures { Empty self result }
    {
        ((self.a | self.b) | self.c) | self.d == 0
    }
}
