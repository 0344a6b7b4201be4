// Keys: 256 times the cost, and the number. In order of key is in order of cost, and of equal cost in order of number.
ghost use Rattle.std.specs.Prelude.{◌≡◌, ◌*◌, ◌+◌, ◌<◌, ◌≤◌};
ghost use Rattle.atoms.specs.Sets.{size};
ghost use Rattle.ranking.specs.Keys.{Extendable, Extended, KeysWritten, TotalsWritten, Writable};

use atoms::AtomSet;

// One member more: the candidates with it stand behind those without.
fn extend(totals: &mut [u32], top: usize, weight: u32)
    requires { Extendable top weight totals.old }
    ensures { Extended top weight totals.old totals.new }
{
    for i in 0..top {
        totals[top + i] = totals[i] + weight;
    }
}

// The total weights of the candidates of at most eight members, from one on.
fn write_totals<'a>(totals: &'a mut [u32], weights: &'a [u8; 16], from: usize, members: usize)
    requires { Writable from members totals.old }
    ensures { TotalsWritten weights.now from members totals.old totals.new }
{
    totals[0] = 0;
    for j in 0..members {
        let weight = u32::from(weights[from + j]);
        extend(totals, 1 << j, weight);
    }
}

// The key of a candidate: 17 times its weight and the count of its ones are its cost.
fn key(total: u32, candidate: u32) -> u32
    requires { (total ≤ 2040) × (candidate < 256) }
    ensures { result ≡ 256 * (17 * total + size candidate) + candidate }
{
    let ones = AtomSet {
        bits: u64::from(candidate),
    }
    .count();
    256 * (17 * total + ones) + candidate
}

// The keys of the candidates of at most eight members, from one on. What stands past them is left. The weights come with a first place and a
// count and not as a part of the array, as the definition `Keys` has them.
pub fn write_keys<'a>(keys: &'a mut [u32], weights: &'a [u8; 16], from: usize, members: usize)
    requires { Writable from members keys.old }
    ensures { KeysWritten weights.now from members keys.old keys.new }
{
    write_totals(keys, weights, from, members);
    for i in 0..1usize << members {
        keys[i] = key(keys[i], i as u32);
    }
}
