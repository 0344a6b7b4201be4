// The station program but for reading and writing: the line of an opening, of a round and of a preview at a slot, and what a record of the input does.
#![tactic(auto)]

ghost use Rattle.std.specs.Prelude.{◌≡◌, ◌≤◌, length};
ghost use Rattle.transcript.specs.Lines.{answer_text, line, refused_line};
ghost use Rattle.session.specs.Types.{move_of};
ghost use Rattle.slot_steps.specs.Types.{answer_of, opens_of, refusal_of};
ghost use Rattle.slot_preview.specs.Types.{next_of, preview_of};
ghost use Rattle.lines.specs.Lines.{Prints, Room, text_of};
ghost use Rattle.station_lines.specs.Lines.{count_of, opening_line, preview_line, round_at_line};

use lines::line::Line;
use lines::{after_number, after_preview, by_number, of_ending, opened};
use session::{Move, Session};
use slot_preview::Preview;
use slot_steps::answer::Answer;
use slot_steps::refusal::Refusal;

pub mod step;

// The line of an opening.
#[tactic(auto, unfolding(crate::specs::Lines::opening_line, transcript::specs::Lines::refused_line))]
pub fn of_opening(slot: u8, answer: Result<(), Refusal>) -> Line
    ensures says { Prints result (opening_line slot (opens_of answer)) }
    ensures fits { Room result 0 }
{
    match answer {
        Ok(()) => after_number(slot, opened()),
        Err(refusal) => after_number(slot, of_refusal(refusal)),
    }
}

// The line of a round, after which the slot's session has this count.
#[tactic(auto, unfolding(crate::specs::Lines::round_at_line))]
pub fn of_round(slot: u8, taken: Move, answer: Answer, count: u8) -> Line
    ensures says { Prints result (round_at_line slot (move_of taken) (answer_of answer) count) }
    ensures fits { Room result 0 }
{
    after_number(slot, of_answer(taken, answer, count))
}

// The line of a preview.
#[tactic(auto, unfolding(crate::specs::Lines::preview_line))]
pub fn of_preview(slot: u8, taken: Move, preview: Preview) -> Line
    ensures says { Prints result (preview_line slot (move_of taken) (preview_of preview)) }
    ensures fits { Room result 0 }
{
    let line = of_answer(taken, preview.answer, count_of(preview.session));
    after_number(slot, after_preview(line))
}

// The count of the session that a preview gives, 0 where it gives none.
fn count_of(next: Option<Session>) -> u8
    ensures { result ≡ count_of (next_of next) }
{
    match next {
        Some(session) => session.count,
        None => 0,
    }
}

// The bench program's line of an answer, without the slot's number.
#[tactic(auto, unfolding(transcript::specs::Lines::refused_line))]
fn of_answer(taken: Move, answer: Answer, count: u8) -> Line
    ensures says { Prints result (line (answer_text count (move_of taken) (answer_of answer))) }
    ensures short { length (text_of result) ≤ 28 }
{
    match answer {
        Ok(ending) => of_ending(count, taken, ending),
        Err(refusal) => of_refusal(refusal),
    }
}

// The line of a refusal, without the slot's number.
fn of_refusal(refusal: Refusal) -> Line
    ensures says { Prints result (refused_line (refusal_of refusal)) }
    ensures short { length (text_of result) ≤ 19 }
{
    match refusal {
        Refusal::Session(of_session) => lines::of_refusal(of_session),
        Refusal::NoSlot | Refusal::Unfinished | Refusal::Full => by_number(refusal.number()),
    }
}
