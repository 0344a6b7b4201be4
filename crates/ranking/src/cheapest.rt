// Of the lanes that pass, the first in order.
ghost use Rattle.std.specs.Prelude.{◌+◌, ◌*◌, ◌<◌};
ghost use Rattle.ranking.specs.Cheapest.{Cheapest, Joined};

use crate::NEVER;

// A lane passes where `passes` is 1.
fn joined(least: u32, passes: u64, key: u32) -> u32
    ensures { Joined least passes key result }
{
    if passes == 1 { least.min(key) } else { least }
}

// The lanes of one word.
fn in_word(keys: &[u32; 256], words: &[u64; 4], t: usize, known: u32) -> u32
    requires { (t < 4) × Cheapest keys.now words.now (64 * t) known }
    ensures { Cheapest keys.now words.now (64 * t + 64) result }
{
    let word = words[t];
    if word == 0 {
        return known;
    }
    let mut least = known;
    for i in 0..64 {
        least = joined(least, (word >> i) % 2, keys[64 * t + i]);
    }
    least
}

// The least key of a lane that passes, or NEVER. Lane i passes where bit i % 64 of word i / 64 is set.
pub fn cheapest(keys: &[u32; 256], words: &[u64; 4]) -> u32
    ensures { Cheapest keys.now words.now 256 result }
{
    let mut least: u32 = NEVER;
    for t in 0..4 {
        least = in_word(keys, words, t, least);
    }
    least
}
