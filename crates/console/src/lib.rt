// The bench program's input but for opening and reading (document 01, "The bench program"): what each byte of it has to tell.
#![tactic(auto)]

pub mod event;
pub mod reader;
pub mod stage;
