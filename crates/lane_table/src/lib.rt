// 256 sets of atoms side by side, in a table: each is a lane, one bit of every row.
#![tactic(auto)]

pub mod lane_set;
pub mod table;
