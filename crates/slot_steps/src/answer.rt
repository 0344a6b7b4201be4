// What a round at a slot answers.
use crate::refusal::Refusal;
use session::answer::Ending;

// A round ends, or is refused.
pub type Answer = Result<Ending, Refusal>;
