// The rules whose heads are in a set, each moved to the next place.
ghost use Rattle.std.specs.Prelude.{◌≡◌, ◌+◌, ◌<◌};
ghost use Rattle.arrays.specs.Arrays.{OneAtom, Span, level_count};
ghost use Rattle.relevance.specs.Places.{KeptIn, StartsMoved, room, room_before};

use arrays::{LEVELS, LevelRules, RuleArrays, Starts};
use atoms::AtomSet;

// Each rule is written at the next place of what is lent, which moves on if the rule is kept. The answer is where each level begins.
pub(crate) fn keep_rules(rules: &LevelRules, set: AtomSet, kept: &mut RuleArrays) -> Starts
    ensures { KeptIn level_count set.bits rules.now.rules.now.heads rules.now.rules.now.positive rules.now.rules.now.negated
        rules.now.starts.now kept.new.heads kept.new.positive kept.new.negated result }
{
    // One array at a time: a value of all three would stand on the stack first.
    kept.heads = [1u64; 128];
    kept.positive = [0u64; 128];
    kept.negated = [0u64; 128];
    let starts = kept_starts(rules, set);
    let count = rules.starts[LEVELS];
    let mut place: usize = 0;
    for k in 0..count {
        let head = rules.rules.heads[k];
        let all = rules.rules.positive[k];
        let none = rules.rules.negated[k];
        kept.heads[place] = head;
        kept.positive[place] = all;
        kept.negated[place] = none;
        place = after(place, AtomSet { bits: head }, set);
    }
    starts
}

// Where each level begins: after what is kept of the levels below it.
fn kept_starts(rules: &LevelRules, set: AtomSet) -> Starts
    ensures { StartsMoved level_count set.bits rules.now.rules.now.heads rules.now.starts.now result }
{
    let mut moved = [0usize; LEVELS + 1];
    let mut from: usize = 0;
    let mut place: usize = 0;
    for l in 0..=LEVELS {
        let to = rules.starts[l];
        place = place_of(&rules.rules.heads, from, to, place, set);
        moved[l] = place;
        from = to;
    }
    moved
}

// The place where the rule at `to` goes, if that at `from` goes to `place`.
fn place_of(heads: &[u64; 128], from: usize, to: usize, place: usize, set: AtomSet) -> usize
    requires { Span from to heads.now × (place ≡ room_before set.bits heads.now from) }
    ensures { result ≡ room_before set.bits heads.now to }
{
    let mut next = place;
    for k in from..to {
        next = after(next, AtomSet { bits: heads[k] }, set);
    }
    next
}

// The place after this one, if the head is in the set.
fn after(place: usize, head: AtomSet, set: AtomSet) -> usize
    requires { (place < 128) × OneAtom head.bits }
    ensures { result ≡ place + room set.bits head.bits }
{
    if set.is_disjoint(head) {
        place
    } else {
        place + 1
    }
}
