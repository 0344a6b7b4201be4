// What the program `record_log` writes of an event: its record to standard output, its notice to standard error.
#![tactic(auto)]

ghost use Rattle.std.specs.Prelude.{◌≡◌};
ghost use Rattle.console.specs.Steps.{events_of};
ghost use Rattle.lines.specs.Lines.{Prints, Room};
ghost use Rattle.recorder.specs.Types.{logged_of};
ghost use Rattle.recording.specs.Recording.{logged, noticed};
ghost use Rattle.recording.specs.Written.{record_told, written_of};

use console::event::Event;
use entries::ENTRY_BYTES;
use lines::line::Line;

// The record, if there is one.
#[tactic(auto, unfolding(crate::specs::Recording::logged))]
pub fn record(event: Event) -> Option<[u8; ENTRY_BYTES]>
    ensures answer { logged_of result ≡ record_told (events_of event) }
    ensures written { written_of result ≡ logged (events_of event) }
{
    match event {
        Event::Nothing | Event::Unopened(_) => None,
        Event::Played(taken, outcome) => recorder::of_round(taken, outcome),
    }
}

// The notice, which may be empty.
#[tactic(auto, unfolding(crate::specs::Recording::noticed), using(crate::proofs::WrittenLaws::one_noticed))]
pub fn notice(event: Event) -> Line
    ensures says { Prints result (noticed (events_of event)) }
    ensures fits { Room result 0 }
{
    match event {
        Event::Unopened(refusal) => lines::of_refusal(refusal),
        Event::Nothing | Event::Played(_, _) => Line::empty(),
    }
}
