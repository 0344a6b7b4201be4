// The rules that bear on a request (document 004, "Removing Irrelevant Rules"): the others are left out, and no answer changes.
#![tactic(auto)]

ghost use Rattle.arrays.specs.Arrays.{Placed, level_count};
ghost use Rattle.relevance.specs.Places.{SameAnswer};

use arrays::{LEVELS, LevelRules, RuleArrays, Starts};
use compaction::keep_rules;
use reach::relevant;

mod compaction;
mod reach;

// Rules laid out by level, which are kept.
#[derive(Clone, Copy)]
pub struct KeptRules {
    pub rules: RuleArrays,
    pub starts: Starts,
    pub ghost placed: { Placed level_count rules.heads starts },
}

// The rules whose heads the request or atom 63 depends on, in the same order and on the same levels.
pub fn relevant_rules(rules: &LevelRules, request: u8) -> KeptRules
    ensures { SameAnswer level_count request rules.now.rules.now.heads rules.now.rules.now.positive
        rules.now.rules.now.negated rules.now.starts.now result.rules.heads result.rules.positive result.rules.negated
        result.starts }
{
    let mut kept = RuleArrays::EMPTY;
    let starts = keep_relevant(rules, request, &mut kept);
    KeptRules {
        rules: kept,
        starts,
    }
}

// The same, put into what is lent, whatever it held: a search has them on the stack once. The answer is where each level begins.
pub fn keep_relevant(rules: &LevelRules, request: u8, kept: &mut RuleArrays) -> Starts
    ensures { SameAnswer level_count request rules.now.rules.now.heads rules.now.rules.now.positive
        rules.now.rules.now.negated rules.now.starts.now kept.new.heads kept.new.positive kept.new.negated result }
{
    let set = relevant(rules.rules, rules.starts[LEVELS], request);
    keep_rules(rules, set, kept)
}
