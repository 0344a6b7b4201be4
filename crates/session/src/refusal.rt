// Refusals of opening and of a round, and the papers' numbers for them.
ghost use Rattle.std.specs.Prelude.{◌≡◌};
ghost use Rattle.rounds.specs.Refusals.{refusal_number};
ghost use Rattle.session.specs.Types.{refusal_of};
ghost use Rattle.session.specs.declared.refusal.Refusal.TheVariants.{Policy};

// Why an opening or a round is refused.
#[derive(Clone, Copy)]
pub enum Refusal {
    // The policy's own refusal, with its record number.
    Policy(policy::refusal::Refusal),
    // A request outside 16 to 62.
    Request,
    // A session that is not sound.
    Unsound,
    // A round in a sound closed session.
    Closed,
}

impl From<policy::refusal::Refusal> for Refusal {
    ghost from_gives = { λ of_policy result. result ≡ Policy of_policy };

    fn from(of_policy: policy::refusal::Refusal) -> Refusal {
        Refusal::Policy(of_policy)
    }
}

impl Refusal {
    // The papers' number of the refusal, 1 to 9, 12 or 13.
    pub fn number(self) -> u8
        ensures { result ≡ refusal_number (refusal_of self) }
    {
        match self {
            Refusal::Policy(refusal) => refusal.number(),
            Refusal::Request => 7,
            Refusal::Unsound => 8,
            Refusal::Closed => 9,
        }
    }
}
