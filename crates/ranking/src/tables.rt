// The keys of lanes and blocks, in tables.
ghost use Rattle.std.specs.Prelude.{◌<◌, ◌≤◌};
ghost use Rattle.ranking.specs.Grid.{Tables};

// The tables are lent, since to copy 2 KB is felt in a search of one block. Any keys may stand in them.
#[derive(Clone, Copy)]
pub struct KeyTables<'a> {
    pub low: &'a [u32; 256],
    pub lanes: usize,
    pub high: &'a [u32; 256],
    pub blocks: usize,
    pub ghost lanes_most: { lanes ≤ 256 },
    pub ghost blocks_most: { blocks ≤ 256 },
}

// Those that a search goes by: there is a block, numbers can be read off the blocks' keys, and past the lanes stands NEVER.
#[derive(Clone, Copy)]
pub struct RankedTables<'a> {
    pub keys: KeyTables<'a>,
    pub ghost tables: { Tables keys.low.now keys.lanes keys.high.now keys.blocks },
    pub ghost some: { 0 < keys.blocks },
}
