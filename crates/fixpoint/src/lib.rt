// Rules closed over: passes over the rules at some places, until one adds nothing, and their count (document 02, R-3). "callers see no count":
// `evaluation` gives the set alone, and only a program that prints counts calls this crate beside.
#![tactic(auto)]

ghost use Rattle.std.specs.Prelude.{◌≡◌, ◌&&◌, ◌-◌};
ghost use Rattle.atoms.specs.Sets.{disjoint, subset};
ghost use Rattle.rules.specs.LevelByLevel.{pass_over, settle};
ghost use Rattle.iteration.specs.Counting.{rule_pass_count};
ghost use Rattle.iteration.specs.IdlePasses.{RulesClosedIn};
ghost use Rattle.arrays.specs.Arrays.{Span, rules_in};

use arrays::RuleArrays;
use atoms::AtomSet;

// A set that a pass has left as it was, and the count of passes up to that one.
#[derive(Clone, Copy)]
pub struct Fixpoint {
    pub set: AtomSet,
    pub passes: u8,
}

// What the rules at places `from` to `to` make of a set. "Not" is read of the set as it was before them.
pub fn close(rules: &RuleArrays, from: usize, to: usize, set: AtomSet) -> Fixpoint
    requires { Span from to rules.now.heads }
    ensures set { result.set.bits ≡ settle (rules_in rules.now.heads rules.now.positive rules.now.negated from (to - from)) set.bits }
    ensures passes { result.passes ≡ rule_pass_count (rules_in rules.now.heads rules.now.positive rules.now.negated from (to - from)) set.bits }
    ensures count { RulesClosedIn (rules_in rules.now.heads rules.now.positive rules.now.negated from (to - from)) set.bits result.set.bits
        result.passes }
{
    let mut reached = set;
    let mut passes: u8 = 0;
    // No range: how many passes there are is found out here. Not one loop with `lane_fixpoint::close`, whose pass changes a table in place and says what it
    // added: a trait over the two would say more than both loops.
    loop {
        let next = pass(rules, from, to, set, reached);
        passes += 1;
        if next == reached {
            return Fixpoint { set: next, passes };
        }
        reached = next;
    }
}

// One pass over the rules at places `from` to `to`. "Not" is read of `below`.
fn pass(rules: &RuleArrays, from: usize, to: usize, below: AtomSet, set: AtomSet) -> AtomSet
    requires { Span from to rules.now.heads }
    ensures { result.bits ≡ pass_over below.bits (rules_in rules.now.heads rules.now.positive rules.now.negated from (to - from)) set.bits }
{
    let mut reached = set;
    for k in from..to {
        let positive = AtomSet {
            bits: rules.positive[k],
        };
        let negated = AtomSet {
            bits: rules.negated[k],
        };
        if body_holds(positive, negated, below, reached) {
            reached = reached.union(AtomSet {
                bits: rules.heads[k],
            });
        }
    }
    reached
}

// All of the positive part in the set, and none of the negated part in `below`: one test of what is amiss.
#[tactic(auto, using(crate::proofs::BodyLaws::nothing_amiss))]
fn body_holds(positive: AtomSet, negated: AtomSet, below: AtomSet, set: AtomSet) -> bool
    ensures { result ≡ (disjoint negated.bits below.bits && subset positive.bits set.bits) }
{
    let amiss = negated.intersection(below).union(positive.difference(set));
    amiss.bits == 0
}
