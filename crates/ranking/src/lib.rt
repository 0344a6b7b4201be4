// Candidates in order of cost: keys of lanes and blocks, the next key in order, the cheapest lane that passes, and places.
#![tactic(auto)]

pub mod cheapest;
pub mod keys;
pub mod next;
pub mod place;
pub mod tables;

// Past the key of any lane or block: a number and not None, so that the least of keys needs no case for none.
pub const NEVER: u32 = 1073741824;
