// The log record of a round as C has it: the reply of gate_round, and the ten bytes of the session that it left.
ghost use Rattle.std.specs.Prelude.{◌≡◌};
ghost use Rattle.session_logs.specs.Exports.{replied_record, reply_record};
ghost use Rattle.recorder.specs.Types.{logged_of};

use crate::record;
use entries::{ASK, DENY, ENTRY_BYTES, GRANT};

// A session's record from C: as long as one of wire, of which nothing else is used here.
pub const SESSION_BYTES: usize = 10;

// The replies of gate_round that tell how a round ended: numbers, since C hands in any.
const GRANTED: u32 = 0x100;

const DENIED: u32 = 0x200;

const ASKED: u32 = 0x300;

// The record of the round that showed `shown`, replied `reply` and left `session`: none of a refused round.
#[tactic(auto, unfolding(session_logs::specs::Exports::reply_record))]
pub fn of_reply(shown: u16, reply: u32, session: &[u8; SESSION_BYTES]) -> Option<[u8; ENTRY_BYTES]>
    ensures answer { logged_of result ≡ reply_record shown reply session.now }
    ensures unchanged { session.now ≡ session.now }
{
    let count = session[6];
    let asked = u16::from_le_bytes([session[8], session[9]]);
    replied(shown, reply, asked, count)
}

// There is no record of any other reply, nor of a question that asks for nothing.
fn replied(shown: u16, reply: u32, asked: u16, count: u8) -> Option<[u8; ENTRY_BYTES]>
    ensures { logged_of result ≡ replied_record shown reply asked count }
{
    match reply {
        GRANTED => Some(record(shown, GRANT, 0, count)),
        DENIED => Some(record(shown, DENY, 0, count)),
        ASKED if asked != 0 => Some(record(shown, ASK, asked, count)),
        _ => None,
    }
}
