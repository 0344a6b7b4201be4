// What a round answers.
use crate::refusal::Refusal;
use question::Question;

// How a round that is not refused ends.
#[derive(Clone, Copy)]
pub enum Ending {
    Grant,
    Deny,
    Ask(Question),
}

// A round ends, or is refused.
pub type Answer = Result<Ending, Refusal>;
