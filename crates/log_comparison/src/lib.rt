// Two logs held against each other (document 02, R-1).
#![tactic(auto)]

pub mod compare;
