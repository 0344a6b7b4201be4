// Refusals of a policy, and the papers' numbers for them (document 01; 12 and 13: document 02, R-2; 6: R-4).
ghost use Rattle.std.specs.Prelude.{◌≡◌};
ghost use Rattle.form.specs.WrittenForm.{record_number, refusal_number};
ghost use Rattle.policy.specs.Types.{refusal_of};

// Why a policy is refused: each case but the first with a record's number, counted from 0, or a number of records.
#[derive(Clone, Copy, Debug, PartialEq, Eq)]
pub enum Refusal {
    // More than 2,304 bytes.
    TooLong,
    // A length that is not a multiple of 18, with the number of whole records.
    NotWhole(u8),
    // A kind that is none of access, disclosure and weight.
    Kind(u8),
    // A head that its kind does not allow.
    Head(u8),
    // A body atom that the kind does not allow.
    Body(u8),
    // No levels for the access rules, with the number of records.
    Level(u8),
    // A weight above 15, or with a negated set.
    Weight(u8),
    // A second weight for one credential.
    SecondWeight(u8),
}

impl Refusal {
    // The papers' number of the refusal, 1 to 6, 12 or 13.
    pub fn number(self) -> u8
        ensures { result ≡ refusal_number (refusal_of self) }
    {
        match self {
            Refusal::TooLong => 1,
            Refusal::NotWhole(_) => 2,
            Refusal::Kind(_) => 3,
            Refusal::Head(_) => 4,
            Refusal::Body(_) => 5,
            Refusal::Level(_) => 6,
            Refusal::Weight(_) => 12,
            Refusal::SecondWeight(_) => 13,
        }
    }

    // The record number that the papers give with it.
    pub fn record(self) -> u8
        ensures { result ≡ record_number (refusal_of self) }
    {
        match self {
            Refusal::TooLong => 128,
            Refusal::NotWhole(k) => k,
            Refusal::Kind(k) => k,
            Refusal::Head(k) => k,
            Refusal::Body(k) => k,
            Refusal::Level(k) => k,
            Refusal::Weight(k) => k,
            Refusal::SecondWeight(k) => k,
        }
    }
}
