// 256 candidates evaluated at once: each has a lane, one bit of every row of a table.
#![tactic(auto)]

pub mod blocks;
mod candidates;
mod levels;
pub mod members;
