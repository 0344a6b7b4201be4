// The atoms that bear on a request: rules followed backwards, from the head to the body, until a pass adds nothing.
ghost use Rattle.std.specs.Prelude.{[], ◌∷◌, ◌<◌, get_or};
ghost use Rattle.arrays.specs.Arrays.{OneAtom, Span, rule_at, rules_in};
ghost use Rattle.relevance.specs.Relevance.{Followed, Relevant};

use arrays::RuleArrays;
use atoms::{AtomSet, VIOLATION};

// The least set with the request and atom 63 that has, with the head of one of the first `count` rules, all of its body.
pub(crate) fn relevant(rules: &RuleArrays, count: usize, request: u8) -> AtomSet
    requires { Span 0 count rules.now.heads }
    ensures { Relevant (rules_in rules.now.heads rules.now.positive rules.now.negated 0 count) request result.bits }
{
    let mut reached = AtomSet::one(request).union(AtomSet::one(VIOLATION));
    loop {
        let next = follow_all(rules, count, reached);
        if next == reached {
            return reached;
        }
        reached = next;
    }
}

// One pass, from the last rule to the first: bodies are mostly on lower levels.
fn follow_all(rules: &RuleArrays, count: usize, set: AtomSet) -> AtomSet
    requires { Span 0 count rules.now.heads }
    ensures { Followed (rules_in rules.now.heads rules.now.positive rules.now.negated 0 count) set.bits result.bits }
{
    let mut reached = set;
    for k in (0..count).rev() {
        reached = follow(rules, k, reached);
    }
    reached
}

// The rule at place k: its body is read and added if its head is in the set.
fn follow(rules: &RuleArrays, k: usize, set: AtomSet) -> AtomSet
    requires { (k < 128) × OneAtom (get_or rules.now.heads k 0) }
    ensures { Followed (rule_at rules.now.heads rules.now.positive rules.now.negated k ∷ []) set.bits result.bits }
{
    let head = rules.heads[k];
    if set.is_disjoint(AtomSet { bits: head }) {
        return set;
    }
    let all = rules.positive[k];
    let none = rules.negated[k];
    set.union(AtomSet { bits: all })
        .union(AtomSet { bits: none })
}
