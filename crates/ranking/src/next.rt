// The next key in order.
ghost use Rattle.std.specs.Prelude.{◌≤◌, length};
ghost use Rattle.ranking.specs.Keys.{never};
ghost use Rattle.ranking.specs.Next.{AtLeast, NextKey};

use crate::NEVER;

// The key itself where it is at least another, or NEVER.
fn at_least(key: u32, from: u32) -> u32
    ensures { AtLeast key from result }
{
    if from <= key { key } else { NEVER }
}

// The least of the first keys that is at least `from`, or NEVER. The keys come with a count, as the definition `NextKey` has them.
pub fn next_key(keys: &[u32], count: usize, from: u32) -> u32
    requires { (count ≤ length keys.now) × (from ≤ never) }
    ensures { NextKey keys.now count from result }
{
    let mut least: u32 = NEVER;
    for key in &keys[..count] {
        least = at_least(*key, from).min(least);
    }
    least
}
