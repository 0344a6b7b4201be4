// The candidates of many members, 256 at a time. Blocks are taken in order of their own keys: the key of a candidate is at least 256 times that of its
// block.
ghost use Rattle.std.specs.Prelude.{◌≡◌, ◌*◌, ◌+◌, ◌^◌, ◌≤◌};
ghost use Rattle.preference.specs.Order.{cost_of, searched};
ghost use Rattle.ranking.specs.Keys.{never, widened};
ghost use Rattle.search.specs.Blocks.{BestOf, Better, Last, Visited};
ghost use Rattle.search.specs.Candidates.{passes};
ghost use Rattle.search.specs.Types.{result_of};

use crate::candidate::candidates;
use crate::result::{SearchResult, found, nothing};
use lanes::blocks::block;
use preference::Search;
use ranking::NEVER;
use ranking::cheapest::cheapest;
use ranking::keys::write_keys;
use ranking::next::next_key;
use ranking::place::{bar, place};
use ranking::tables::{KeyTables, RankedTables};

// So many members are the lanes' at most.
const LANE_MEMBERS: usize = 8;

// Past the key of any candidate, as ranking::NEVER is past that of any lane or block.
const NEVER_KEY: u64 = 274877906944;

// The first that unlocks the request, and its place.
pub(crate) fn by_blocks(search: &Search, weights: &[u8; 16], limit: usize) -> SearchResult
    ensures { result_of result ≡ searched (cost_of weights.now) (passes search.now) (2 ^ search.now.count) limit }
{
    let count = search.count;
    let inner = count.min(LANE_MEMBERS);
    let mut low = [NEVER; 256];
    write_keys(&mut low, weights, 0, inner);
    let mut high = [NEVER; 256];
    write_keys(&mut high, weights, inner, count - inner);
    let lanes = candidates(inner);
    let blocks = candidates(count - inner);
    let tables = RankedTables {
        keys: KeyTables {
            low: &low,
            lanes,
            high: &high,
            blocks,
        },
    };
    let end = bar(&tables.keys, limit);
    let best = best_of(search, &tables, end);
    if NEVER_KEY <= best {
        return nothing(candidates(count) - 1, limit);
    }
    let before = place(&tables.keys, best);
    found((best % 65536) as usize, before, limit)
}

// The best key of a candidate, until none of the blocks left can hold a better one.
fn best_of(search: &Search, tables: &RankedTables, end: u32) -> u64
    requires { end ≤ never }
    ensures { BestOf (passes search.now) tables.now.keys.low.now tables.now.keys.lanes tables.now.keys.high.now tables.now.keys.blocks end result }
{
    let high = tables.keys.high;
    let mut best: u64 = NEVER_KEY;
    let mut from: u32 = 0;
    // How many blocks are visited is not known before.
    loop {
        let key = next_key(high, tables.keys.blocks, from);
        if is_last(key, end, best) {
            return best;
        }
        best = visit(search, tables, key, best);
        from = key + 1;
    }
}

// The block of this key is past the end, or holds nothing better.
fn is_last(key: u32, end: u32, best: u64) -> bool
    ensures { Last key end best result }
{
    end <= key || best < 256 * u64::from(key)
}

// The best key so far, or that of the first lane that passes of the block of this key.
fn visit(search: &Search, tables: &RankedTables, key: u32, best: u64) -> u64
    ensures { Visited (passes search.now) tables.now.keys.low.now tables.now.keys.lanes key best result }
{
    let words = block(search, (key % 256) as usize);
    let lane = cheapest(tables.keys.low, &words);
    better(best, key, lane)
}

// The key of a candidate by its block and its lane, where it is better.
fn better(best: u64, key: u32, lane: u32) -> u64
    ensures { Better best (256 * key + widened lane) result }
{
    let number = u64::from(lane % 256);
    let cost = u64::from(lane / 256);
    best.min(256 * u64::from(key) + 65536 * cost + number)
}
