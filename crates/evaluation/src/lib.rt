// Rules in arrays closed over, level by level (document 01, "The model").
#![tactic(auto)]

pub mod closure;
pub mod levels;
