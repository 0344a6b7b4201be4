// Atoms and sets of atoms (document 01, "Atoms and records").
#![tactic(auto)]

ghost use Rattle.std.specs.Prelude.{◌≡◌};
ghost use Rattle.std.specs.Iterator.{YieldsFirst, item_count};
ghost use Rattle.atoms.specs.Sets.{atoms_of, difference, disjoint, intersection, member, single, size, subset, union};

// Atoms 0 to 15 are credentials, 16 to 62 derived.
pub const LAST_CREDENTIAL: u8 = 15;

pub const FIRST_DERIVED: u8 = 16;

pub const LAST_DERIVED: u8 = 62;
// The breach mark: the head of an integrity constraint.
pub const VIOLATION: u8 = 63;

// A set of atoms: bit k stands for atom k.
#[derive(Clone, Copy, PartialEq, Eq)]
pub struct AtomSet {
    pub bits: u64,
}

impl AtomSet {
    pub const EMPTY: AtomSet = AtomSet { bits: 0 };

    // The set of one atom: empty above 63.
    pub fn one(atom: u8) -> AtomSet
        ensures { result.bits ≡ single atom }
    {
        if atom > VIOLATION {
            return AtomSet::EMPTY;
        }
        let bits = 1u64 << atom;
        AtomSet { bits }
    }

    // A set of credentials, the low 16 bits.
    pub fn credentials(set: u16) -> AtomSet
        ensures { result.bits ≡ set }
    {
        AtomSet {
            bits: u64::from(set),
        }
    }

    pub fn union(self, other: AtomSet) -> AtomSet
        ensures { result.bits ≡ union self.bits other.bits }
    {
        AtomSet {
            bits: self.bits | other.bits,
        }
    }

    pub fn intersection(self, other: AtomSet) -> AtomSet
        ensures { result.bits ≡ intersection self.bits other.bits }
    {
        AtomSet {
            bits: self.bits & other.bits,
        }
    }

    // The atoms of this set that are not in the other.
    pub fn difference(self, other: AtomSet) -> AtomSet
        ensures { result.bits ≡ difference self.bits other.bits }
    {
        AtomSet {
            bits: self.bits & !other.bits,
        }
    }

    pub fn is_subset(self, other: AtomSet) -> bool
        ensures { result ≡ subset self.bits other.bits }
    {
        self.bits & other.bits == self.bits
    }

    // The two sets share no atom.
    pub fn is_disjoint(self, other: AtomSet) -> bool
        ensures { result ≡ disjoint self.bits other.bits }
    {
        self.bits & other.bits == 0
    }

    // No atom above 63 is in a set.
    pub fn contains(self, atom: u8) -> bool
        ensures { result ≡ member atom self.bits }
    {
        atom <= VIOLATION && (self.bits >> atom) % 2 == 1
    }

    // How many atoms the set has: its one bits.
    #[tactic(auto, using(crate::proofs::SizeLaws::size_is))]
    pub fn count(self) -> u32
        ensures { result ≡ size self.bits }
    {
        self.bits.count_ones()
    }

    // The atoms of the set, rising.
    pub fn members(self) -> Members
        ensures { result.left ≡ self.bits }
    {
        Members { left: self.bits }
    }
}

// The atoms of a set, rising, from the first that has not come yet.
#[derive(Drop)]
pub struct Members {
    left: u64,
}

impl Iterator for Members {
    type Item = usize;

    ghost next_gives = { YieldsFirst (λ m. atoms_of m.left) };

    ghost remaining = { item_count (λ m. atoms_of m.left) };

    fn next(&mut self) -> Option<usize> {
        let left = self.left;
        if left == 0 {
            return None;
        }
        self.left = left & (left - 1);
        Some(left.trailing_zeros() as usize)
    }
}
