// A policy's rules of one kind, read once from its bytes.
ghost use Rattle.records.specs.Records.{rules_of};
ghost use Rattle.form.specs.WrittenForm.{WellFormed};
ghost use Rattle.arrays.specs.Arrays.{Heads, InOrder, Span};

use arrays::RuleArrays;
use atoms::AtomSet;
use records::record_at;

// The first `count` places hold the rules, in the order of their records. A count and no vector: the passes go over parts of the same arrays.
#[derive(Clone, Copy)]
pub struct Listed {
    pub rules: RuleArrays,
    pub count: usize,
    pub ghost places: { Span 0 count rules.heads },
}

// The rules of one kind of an accepted policy.
pub fn rules_of(policy: &[u8], kind: u8) -> Listed
    requires { WellFormed policy.now }
    ensures { InOrder (rules_of kind policy.now) result.rules.heads result.rules.positive result.rules.negated result.count }
{
    let mut rules = RuleArrays::EMPTY;
    let count = list(policy, kind, &mut rules);
    Listed { rules, count }
}

// The same, put into what is lent; the answer is how many they are.
pub fn list(policy: &[u8], kind: u8, rules: &mut RuleArrays) -> usize
    requires { WellFormed policy.now × Heads rules.old.heads }
    ensures { InOrder (rules_of kind policy.now) rules.new.heads rules.new.positive rules.new.negated result }
{
    let mut count: usize = 0;
    for k in 0..policy.len() / 18 {
        let parsed = record_at(policy, k);
        if parsed.kind == kind {
            rules.heads[count] = AtomSet::one(parsed.head).bits;
            rules.positive[count] = parsed.positive.bits;
            rules.negated[count] = parsed.negated.bits;
            count += 1;
        }
    }
    count
}
