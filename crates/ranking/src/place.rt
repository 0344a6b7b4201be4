// Places: how many candidates come before one, counted by blocks.
ghost use Rattle.std.specs.Prelude.{◌≡◌, ◌*◌, ◌<◌, ◌≤◌, length};
ghost use Rattle.ranking.specs.Place.{Bar, keys_below, keys_in, narrow};

use crate::NEVER;
use crate::tables::KeyTables;

// How many of the first keys are below a bar. The keys come with a count, as the definition `keys_below` has them.
pub fn keys_below(keys: &[u32], count: usize, bar: u32) -> u32
    requires { (count ≤ length keys.now) × (count ≤ 256) }
    ensures { (result ≡ keys_below keys.now count bar) × (result ≤ count) }
{
    let mut n: u32 = 0;
    for key in &keys[..count] {
        n += u32::from(*key < bar);
    }
    n
}

// The bar of the lanes whose part of a candidate's key is below what is left.
fn narrow(left: u64) -> u32
    requires { left < 274877906944 }
    ensures { result ≡ narrow left }
{
    let number = left % 65536;
    let cost = (left / 65536) as u32;
    256 * cost + number.min(256) as u32
}

// How many lanes add less to a key than is left. Nothing is left for a block that comes after it.
fn lanes_below(low: &[u32; 256], lanes: usize, left: u64) -> u32
    requires { (lanes ≤ 256) × (left < 274877906944) }
    ensures { (result ≡ keys_below low.now lanes (narrow left)) × (result ≤ lanes) }
{
    if left == 0 {
        return 0;
    }
    keys_below(low, lanes, narrow(left))
}

// How many candidates have a key below the given one.
pub fn place(tables: &KeyTables, key: u64) -> usize
    requires { key < 274877906944 }
    ensures { result ≡ keys_in tables.now.low.now tables.now.lanes tables.now.high.now tables.now.blocks key }
{
    let mut count: u32 = 0;
    for b in 0..tables.blocks {
        // What is left of the key for the lanes of this block.
        let left = key.saturating_sub(256 * u64::from(tables.high[b]));
        count += lanes_below(tables.low, tables.lanes, left);
    }
    count as usize
}

// Blocks from this key on stand past the limit; NEVER where not even the first candidate of the last block does.
pub fn bar(tables: &KeyTables, limit: usize) -> u32
    ensures { Bar tables.now.low.now tables.now.lanes tables.now.high.now tables.now.blocks limit result }
{
    if tables.lanes * tables.blocks <= limit {
        return NEVER;
    }
    // There is a block then. Only of keys below NEVER a place is counted.
    let last = tables.high[tables.blocks - 1].min(NEVER - 1);
    if place(tables, 256 * u64::from(last)) <= limit {
        return NEVER;
    }
    let mut from: u32 = 0;
    let mut to = last;
    // Halving has no range to go over.
    while from < to {
        let middle = from + (to - from) / 2;
        if place(tables, 256 * u64::from(middle)) <= limit {
            from = middle + 1;
        } else {
            to = middle;
        }
    }
    to
}
