// Answers as numbers (packing's specs/Replies says which).
ghost use Rattle.std.specs.Prelude.{◌≡◌};
ghost use Rattle.policy.specs.Types as policy_types;
ghost use Rattle.session.specs.Types.{ending_of, refusal_of};
ghost use Rattle.packing.specs.Replies.{ending_reply, policy_reply, refusal_reply};

use session::answer::Ending;
use session::refusal::Refusal;

// Numbers for C (include/gate.h). Nothing is refused, and there is no more to say.
pub const DONE: u32 = 0;

// How a round ended: the reply's higher byte.
const GRANT: u32 = 1;

const DENY: u32 = 2;

const ASK: u32 = 3;

// A policy's refusal: its number, and above it the record's.
pub fn of_policy(refusal: policy::refusal::Refusal) -> u32
    ensures { result ≡ policy_reply (policy_types.refusal_of refusal) }
{
    u32::from(refusal.number()) + 256 * u32::from(refusal.record())
}

pub fn of_refusal(refusal: Refusal) -> u32
    ensures { result ≡ refusal_reply (refusal_of refusal) }
{
    match refusal {
        Refusal::Policy(refused) => of_policy(refused),
        Refusal::Request | Refusal::Unsound | Refusal::Closed => u32::from(refusal.number()),
    }
}

// How a round ended; what is asked stands in the record.
pub fn of_ending(ending: Ending) -> u32
    ensures { result ≡ ending_reply (ending_of ending) }
{
    match ending {
        Ending::Grant => 256 * GRANT,
        Ending::Deny => 256 * DENY,
        Ending::Ask(_) => 256 * ASK,
    }
}
