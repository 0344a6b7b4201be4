// The bench program's lines (document 01, "The bench program"): the line of an event, which is that of a round or of a refusal. The station program's
// have a number in front.
#![tactic(auto)]

ghost use Rattle.std.specs.Prelude.{◌++◌, ◌+◌, ◌≤◌, length};
ghost use Rattle.rounds.specs.Refusals.{number, of_policy};
ghost use Rattle.session.specs.Types.{ending_of, move_of, outcome_of, refusal_of};
ghost use Rattle.policy.specs.Types.{refusal_of as policy_refusal_of};
ghost use Rattle.transcript.specs.Numerals.{ascii, decimal};
ghost use Rattle.transcript.specs.Lines.{got_text, line, refused_line, round_line, round_text};
ghost use Rattle.transcript.specs.Output.{printed};
ghost use Rattle.console.specs.Steps.{events_of};
ghost use Rattle.lines.specs.Lines.{Prints, Room, text_of};

use console::event::Event;
use line::Line;
use session::answer::Ending;
use session::refusal::Refusal;
use session::{Move, Outcome};

pub mod line;

// The line of an event, or none.
#[tactic(auto, using(transcript::proofs::OutputLaws::printed_one))]
pub fn of_event(event: Event) -> Line
    ensures says { Prints result (printed (events_of event)) }
    ensures fits { Room result 0 }
{
    match event {
        Event::Nothing => Line::empty(),
        Event::Unopened(refusal) => of_refusal(refusal),
        Event::Played(taken, outcome) => of_round(taken, outcome),
    }
}

// The line of a round: its count and what was shown, unless it is refused.
#[tactic(auto, unfolding(transcript::specs::Lines::refused_line, transcript::specs::Lines::round_line))]
pub fn of_round(taken: Move, outcome: Outcome) -> Line
    ensures says { Prints result (round_line (move_of taken) (outcome_of outcome)) }
    ensures fits { Room result 0 }
{
    match outcome.answer {
        Ok(ending) => of_ending(outcome.session.count, taken, ending),
        Err(refusal) => of_refusal(refusal),
    }
}

// The line of a round that is not refused.
pub fn of_ending(count: u8, taken: Move, ending: Ending) -> Line
    ensures says { Prints result (line (round_text count (move_of taken) (ending_of ending))) }
    ensures short { length (text_of result) ≤ 28 }
{
    let line = got(count, taken);
    match ending {
        Ending::Grant => line.text(" grant\n"),
        Ending::Deny => line.text(" deny\n"),
        Ending::Ask(question) => line.text(" ask ").set(question.asks).text("\n"),
    }
}

// The beginning of such a line.
fn got(count: u8, taken: Move) -> Line
    ensures says { Prints result (got_text count (move_of taken)) }
    ensures short { length (text_of result) ≤ 18 }
{
    let round = numbered("round ", count);
    round.text(" got ").set(taken.shows)
}

// The line of a refusal.
pub fn of_refusal(refusal: Refusal) -> Line
    ensures says { Prints result (refused_line (refusal_of refusal)) }
    ensures short { length (text_of result) ≤ 19 }
{
    match refusal {
        Refusal::Policy(of_policy) => of_refused_policy(of_policy),
        Refusal::Request | Refusal::Unsound | Refusal::Closed => by_number(refusal.number()),
    }
}

// The line of a refusal that has a number alone.
#[tactic(auto, unfolding(transcript::specs::Lines::refused_line))]
pub fn by_number(n: u8) -> Line
    ensures says { Prints result (refused_line (number n)) }
    ensures short { length (text_of result) ≤ 12 }
{
    numbered("refused ", n).text("\n")
}

// The line of a refused policy, with the record number.
#[tactic(auto, unfolding(transcript::specs::Lines::refused_line))]
pub fn of_refused_policy(refusal: policy::refusal::Refusal) -> Line
    ensures says { Prints result (refused_line (of_policy (policy_refusal_of refusal))) }
    ensures short { length (text_of result) ≤ 19 }
{
    let line = numbered("refused ", refusal.number()).text(" at ");
    line.decimal(refusal.record()).text("\n")
}

// The line of an opening that is not refused.
pub fn opened() -> Line
    ensures says { Prints result (line (ascii "opened")) }
    ensures fits { Room result 0 }
{
    Line::empty().text("opened\n")
}

// A number in front of a line.
pub fn after_number(number: u8, line: Line) -> Line
    requires { Room line 4 }
    ensures says { Prints result (decimal number ++ (ascii " " ++ text_of line)) }
    ensures fits { Room result 0 }
{
    let front = Line::empty().decimal(number).text(" ");
    front.text(line.as_str())
}

// The word for a preview in front of a line.
pub fn after_preview(line: Line) -> Line
    requires { Room line 8 }
    ensures says { Prints result (ascii "preview " ++ text_of line) }
    ensures fits { Room result 0 }
{
    Line::empty().text("preview ").text(line.as_str())
}

// A text and a number.
fn numbered(text: &str, number: u8) -> Line
    requires { length text.now ≤ 8 }
    ensures says { Prints result (text.now ++ decimal number) }
    ensures short { length (text_of result) ≤ length text.now + 3 }
{
    Line::empty().text(text).decimal(number)
}
