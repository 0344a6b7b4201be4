// Rules closed over, without the count of passes (document 02, R-3: "callers see no count").
ghost use Rattle.std.specs.Prelude.{◌≡◌, ◌-◌};
ghost use Rattle.rules.specs.LevelByLevel.{settle};
ghost use Rattle.arrays.specs.Arrays.{Span, rules_in};

use arrays::RuleArrays;
use atoms::AtomSet;

// What the rules at places `from` to `to` make of a set. "Not" is read of the set as it was before them.
pub fn close(rules: &RuleArrays, from: usize, to: usize, set: AtomSet) -> AtomSet
    requires { Span from to rules.now.heads }
    ensures { result.bits ≡ settle (rules_in rules.now.heads rules.now.positive rules.now.negated from (to - from)) set.bits }
{
    fixpoint::close(rules, from, to, set).set
}
