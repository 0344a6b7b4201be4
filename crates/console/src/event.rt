// What there is to tell.
use session::refusal::Refusal;
use session::{Move, Outcome};

// What a byte tells. An `Option` of the other two would be no plainer: each use would match twice.
#[derive(Clone, Copy)]
pub enum Event {
    Nothing,
    // A policy or a request that is refused.
    Unopened(Refusal),
    // A round, refused or not.
    Played(Move, Outcome),
}
