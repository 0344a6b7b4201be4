// Refusals of an opening and of a round at a slot, and the papers' numbers for them.
ghost use Rattle.std.specs.Prelude.{◌≡◌};
ghost use Rattle.rounds.specs.Refusals.{refusal_number};
ghost use Rattle.session.specs.declared.refusal.Refusal.TheVariants.{Policy};
ghost use Rattle.slot_steps.specs.Types.{refusal_of};
ghost use Rattle.slot_steps.specs.declared.refusal.Refusal.TheVariants.{Session};

// Why an opening or a round at a slot is refused.
#[derive(Clone, Copy)]
pub enum Refusal {
    // As an opening or a round of a session is, with its own number.
    Session(session::refusal::Refusal),
    // No slot has that number.
    NoSlot,
    // The slot holds an unfinished session.
    Unfinished,
    // The owner has four unfinished sessions or more.
    Full,
}

impl From<session::refusal::Refusal> for Refusal {
    ghost from_gives = { λ of_session result. result ≡ Session of_session };

    fn from(of_session: session::refusal::Refusal) -> Refusal {
        Refusal::Session(of_session)
    }
}

impl From<policy::refusal::Refusal> for Refusal {
    ghost from_gives = { λ of_policy result. result ≡ Session (Policy of_policy) };

    fn from(of_policy: policy::refusal::Refusal) -> Refusal {
        Refusal::Session(of_policy.into())
    }
}

impl Refusal {
    // The papers' number of the refusal, 1 to 9 or 12 to 16.
    pub fn number(self) -> u8
        ensures { result ≡ refusal_number (refusal_of self) }
    {
        match self {
            Refusal::Session(refusal) => refusal.number(),
            Refusal::NoSlot => 14,
            Refusal::Unfinished => 15,
            Refusal::Full => 16,
        }
    }
}
