// Slots, and what an opening and a round make of one (document 02, R-5). The paper's word for a slot is seat.
#![tactic(auto)]

use session::Session;

pub mod answer;
pub mod count;
pub mod opening;
pub mod refusal;
pub mod round;

// A session and its owner.
#[derive(Clone, Copy)]
pub struct Holding {
    pub owner: u8,
    pub session: Session,
}

// Empty, or held.
#[derive(Clone, Copy)]
pub struct Slot {
    pub holding: Option<Holding>,
}
