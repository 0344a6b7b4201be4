// A whole list of rounds, run by the program: demand 3 is its contract.
#![tactic(auto)]

ghost use Rattle.std.specs.Prelude.{◌≡◌, map};
ghost use Rattle.rounds.specs.Moves.{showing};
ghost use Rattle.rounds.specs.Rounds.{opening};
ghost use Rattle.session.specs.Types.{move_of};
ghost use Rattle.replay.specs.Replay.{Replays, begun, one_more, replayed};
ghost use Rattle.replay.specs.Types.{replayed_of};

use session::refusal::Refusal;
use session::{Move, Outcome, Session};

// What a list of rounds comes to.
#[derive(Clone, Copy)]
pub enum Replayed {
    // The opening's refusal: no session.
    Unopened(Refusal),
    // The fresh session: no round.
    Unplayed(Session),
    // The last round's answer and session.
    Played(Outcome),
}

// Opens a session and runs a round for each shown set, one after another.
pub fn replay(policy: &[u8], request: u16, shown: &[u16]) -> Replayed
    ensures answer { replayed_of result ≡ replayed policy.now request shown.now }
    ensures demand3 { Replays policy.now request (map showing shown.now) (replayed_of result) }
    ensures unchanged { (policy.now ≡ policy.now) × (shown.now ≡ shown.now) }
{
    let mut state = start(request);
    for shows in shown {
        state = one_more(policy, state, Move { shows: *shows });
    }
    state
}

// Before the first round.
fn start(request: u16) -> Replayed
    ensures { replayed_of result ≡ begun (opening request) }
{
    match Session::open(request) {
        Ok(session) => Replayed::Unplayed(session),
        Err(refusal) => Replayed::Unopened(refusal),
    }
}

// One more round, with the session that the one before gave back.
fn one_more(policy: &[u8], state: Replayed, taken: Move) -> Replayed
    ensures { replayed_of result ≡ one_more policy.now (replayed_of state) (move_of taken) }
{
    match state {
        Replayed::Unopened(_) => state,
        Replayed::Unplayed(session) => Replayed::Played(session.round(policy, taken)),
        Replayed::Played(before) => Replayed::Played(before.session.round(policy, taken)),
    }
}
