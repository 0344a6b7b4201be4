// The log record of a round (document 02, R-1), from its move and outcome, and as C has them.
#![tactic(auto)]

ghost use Rattle.std.specs.Prelude.{◌≡◌};
ghost use Rattle.logs.specs.Entries.{write_entry};
ghost use Rattle.session.specs.Types.{ending_of, move_of, outcome_of};
ghost use Rattle.session_logs.specs.RoundRecords.{ending_entry, round_record};
ghost use Rattle.session_logs.specs.Theorems.{RecordBytes};
ghost use Rattle.recorder.specs.Types.{logged_of};

use entries::{ASK, DENY, ENTRY_BYTES, Entry, GRANT};
use session::answer::Ending;
use session::{Move, Outcome};

pub mod reply;

// The record of a round where it was accepted.
#[tactic(auto, unfolding(session_logs::specs::RoundRecords::round_record), using(session_logs::proofs::RecordLaws::record_bytes))]
pub fn of_round(taken: Move, outcome: Outcome) -> Option<[u8; ENTRY_BYTES]>
    ensures answer { logged_of result ≡ round_record (move_of taken) (outcome_of outcome) }
    ensures meaning { RecordBytes (move_of taken) (outcome_of outcome).answer (outcome_of outcome).session.count (logged_of result) }
{
    match outcome.answer {
        Ok(ending) => Some(of_ending(taken, ending, outcome.session.count)),
        Err(_) => None,
    }
}

// The record of an accepted round, with the count after it.
fn of_ending(taken: Move, ending: Ending, count: u8) -> [u8; ENTRY_BYTES]
    ensures { result ≡ write_entry (ending_entry (move_of taken) (ending_of ending) count) }
{
    match ending {
        Ending::Grant => record(taken.shows, GRANT, 0, count),
        Ending::Deny => record(taken.shows, DENY, 0, count),
        Ending::Ask(question) => record(taken.shows, ASK, question.asks, count),
    }
}

// The bytes of a record with zeros at its end.
pub(crate) fn record(shown: u16, answer: u8, asked: u16, count: u8) -> [u8; ENTRY_BYTES]
    ensures { result ≡ write_entry (record { shown = shown; answer = answer; asked = asked; count = count; pad = 0 }) }
{
    let entry = Entry {
        shown,
        answer,
        asked,
        count,
        pad: 0,
    };
    entry.bytes()
}
