// Rules in arrays: definitions and theorems, and the arrays themselves.
#![tactic(auto)]

ghost use Rattle.arrays.specs.Arrays.{Placed, level_count};

// Level 0, and one for each of 64 atoms. Those that are not needed have no rules and come last.
pub const LEVELS: usize = 65;

// Where each level begins, and where the last one ends.
pub type Starts = [usize; 66];

// Heads, each the set of that one atom, beside positive and negated parts. Three arrays and not one of rules: the theorem `laid_out` and the
// definitions that it rests on speak of three lists.
#[derive(Clone, Copy)]
pub struct RuleArrays {
    pub heads: [u64; 128],
    pub positive: [u64; 128],
    pub negated: [u64; 128],
}

impl RuleArrays {
    // No rules: each place holds a head all the same, as every place must.
    pub const EMPTY: RuleArrays = RuleArrays {
        heads: [1u64; 128],
        positive: [0u64; 128],
        negated: [0u64; 128],
    };
}

// Rules laid out by level: those of level l are at places starts[l] to starts[l + 1]. The arrays are lent: to put them into a struct would copy 3 KB.
#[derive(Clone, Copy)]
pub struct LevelRules<'a> {
    pub rules: &'a RuleArrays,
    pub starts: &'a Starts,
    pub ghost placed: { Placed level_count rules.now.heads starts.now },
}
