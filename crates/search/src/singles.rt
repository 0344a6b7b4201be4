// The candidates of few members, one by one.
ghost use Rattle.std.specs.Prelude.{◌≡◌, false, ◌<◌, ◌^◌, ◌≤◌};
ghost use Rattle.preference.specs.Order.{cost_of, searched};
ghost use Rattle.search.specs.Candidates.{passes};
ghost use Rattle.search.specs.Singles.{BestLane, Tried, turn_of};
ghost use Rattle.search.specs.Types.{result_of};

use crate::candidate::{candidates, opens};
use crate::result::{SearchResult, found, nothing};
use preference::Search;
use ranking::NEVER;
use ranking::keys::write_keys;
use ranking::place::keys_below;

// The first that unlocks the request, and its place. The shown set alone does not.
pub(crate) fn one_by_one(search: &Search, weights: &[u8; 16], limit: usize) -> SearchResult
    requires few { search.now.count ≤ 3 }
    requires locked { passes search.now 0 ≡ false }
    ensures { result_of result ≡ searched (cost_of weights.now) (passes search.now) (2 ^ search.now.count) limit }
{
    let lanes = candidates(search.count);
    // Eight keys and no `KeyTables`: these candidates need no more.
    let mut low = [NEVER; 8];
    write_keys(&mut low, weights, 0, search.count);
    let best = best_lane(search, &low);
    if NEVER <= best {
        return nothing(lanes - 1, limit);
    }
    let place = keys_below(&low, lanes, best);
    found((best % 256) as usize, place as usize, limit)
}

// The best key of a candidate that passes, or NEVER. Singles come first, then pairs: in order where all weigh the same.
fn best_lane(search: &Search, low: &[u32; 8]) -> u32
    ensures { BestLane (passes search.now) low.now 7 result }
{
    let mut best: u32 = NEVER;
    for k in 0..7 {
        let n = turn(k);
        best = tried(search, n, low[n], best);
    }
    best
}

// The candidate whose turn it is: 3, the first pair, after 4, the last single.
fn turn(k: usize) -> usize
    requires { k < 7 }
    ensures { (result ≡ turn_of k) × (result < 8) }
{
    match k {
        2 => 4,
        3 => 3,
        _ => k + 1,
    }
}

// A candidate is tried where its key is better than the best so far.
fn tried(search: &Search, n: usize, key: u32, best: u32) -> u32
    ensures { Tried (passes search.now n) key best result }
{
    if key < best && opens(search, n) {
        key
    } else {
        best
    }
}
