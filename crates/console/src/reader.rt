// The input a byte at a time.
ghost use Rattle.std.specs.Prelude.{◌≡◌, []};
ghost use Rattle.std.proofs.Math.Option.{some};
ghost use Rattle.transcript.specs.Steps.{begun, byte_step, is_ended, record_step, whole_step};
ghost use Rattle.console.specs.Steps.{reader_of, stage_of, step_of};

use crate::event::Event;
use crate::stage::{Stage, record};

// How far the input is read: the stage, and the first byte of a record until the second comes.
#[derive(Clone, Copy)]
pub struct Reader {
    pub stage: Stage,
    pub half: Option<u8>,
}

// What a byte tells, and the reader then.
#[derive(Clone, Copy)]
pub struct Step {
    pub event: Event,
    pub reader: Reader,
}

impl Reader {
    // Before the first byte.
    pub fn begin() -> Reader
        ensures { reader_of result ≡ begun }
    {
        Reader {
            stage: Stage::Request,
            half: None,
        }
    }

    // Whether nothing more is told, whatever comes.
    pub fn ended(self) -> bool
        ensures { result ≡ is_ended (reader_of self) }
    {
        matches!(self.stage, Stage::Ended)
    }

    // The next byte of the input.
    #[tactic(auto, using(crate::proofs::NumberLaws::two_bytes), unfolding(transcript::specs::Steps::byte_step))]
    pub fn next(self, policy: &[u8], byte: u8) -> Step
        ensures answer { step_of result ≡ byte_step policy.now (reader_of self) byte }
        ensures unchanged { policy.now ≡ policy.now }
    {
        match self.half {
            None => first_byte(self.stage, byte),
            Some(low) => second_byte(self.stage, policy, u16::from_le_bytes([low, byte])),
        }
    }
}

// A record is begun, and nothing told.
fn first_byte(stage: Stage, byte: u8) -> Step
    ensures { step_of result ≡ record { tells = []; reader = record { stage = stage_of stage; half = some byte } } }
{
    Step {
        event: Event::Nothing,
        reader: Reader {
            stage,
            half: Some(byte),
        },
    }
}

// A record is whole.
fn second_byte(stage: Stage, policy: &[u8], number: u16) -> Step
    ensures { step_of result ≡ whole_step (record_step policy.now (stage_of stage) number) }
{
    let whole = record(stage, policy, number);
    Step {
        event: whole.event,
        reader: Reader {
            stage: whole.stage,
            half: None,
        },
    }
}
