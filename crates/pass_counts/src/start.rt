// The sets that 256 lanes begin with, written into a table.
use lane_table::table::LaneTable;
use lanes::members::takers;

// Lane j has the credentials, their low eight bits replaced by j: those of candidate j of the block that the high eight bits number.
pub(crate) fn fill(table: &mut LaneTable, credentials: u16) {
    let block = usize::from(credentials >> 8);
    for k in 0..16 {
        table.store(k, takers(k, block));
    }
}
