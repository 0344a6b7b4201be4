// Sessions as ten bytes, answers as numbers.
#![tactic(auto)]

pub mod packed;
pub mod reply;
