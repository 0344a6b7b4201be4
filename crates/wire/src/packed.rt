// A session as a record of ten bytes (packing's specs/Packed has its layout).
ghost use Rattle.std.specs.Prelude.{◌≡◌};
ghost use Rattle.session.specs.Types.{session_of};
ghost use Rattle.packing.specs.Packed.{packed, packed_as, phase_in, unpacked};
ghost use Rattle.wire.specs.Types.{tagged_of, unpacked_of};

use question::Question;
use session::{Phase, Session, Verdict};

pub const RECORD_BYTES: usize = 10;

// Byte 7 as C has it, which may be any number: read in one place and written in one, so plain numbers here and `Phase` elsewhere.
const FRESH: u8 = 0;

const WAITING: u8 = 1;

const GRANTED: u8 = 2;

const DENIED: u8 = 3;

// The session that ten bytes stand for, if they do.
#[tactic(auto, unfolding(packing::specs::Packed::unpacked))]
pub fn unpack(bytes: &[u8; RECORD_BYTES]) -> Option<Session>
    ensures { unpacked_of result ≡ unpacked bytes.now }
{
    let asked = u16::from_le_bytes([bytes[8], bytes[9]]);
    let phase = phase_in(bytes[7], asked)?;
    Some(Session {
        request: u16::from_le_bytes([bytes[0], bytes[1]]),
        shown: u16::from_le_bytes([bytes[2], bytes[3]]),
        declined: u16::from_le_bytes([bytes[4], bytes[5]]),
        count: bytes[6],
        phase,
    })
}

// The phase that a tag and a question say, if they do: only a waiting session asks for anything.
fn phase_in(tag: u8, asked: u16) -> Option<Phase>
    ensures { tagged_of result ≡ phase_in tag asked }
{
    match tag {
        WAITING => Some(Phase::Waiting(Question { asks: asked })),
        _ if asked != 0 => None,
        FRESH => Some(Phase::Fresh),
        GRANTED => Some(Phase::Closed(Verdict::Granted)),
        DENIED => Some(Phase::Closed(Verdict::Denied)),
        _ => None,
    }
}

#[tactic(auto, unfolding(packing::specs::Packed::packed))]
pub fn pack(session: Session) -> [u8; RECORD_BYTES]
    ensures { result ≡ packed (session_of session) }
{
    match session.phase {
        Phase::Fresh => pack_as(session, FRESH, 0),
        Phase::Waiting(question) => pack_as(session, WAITING, question.asks),
        Phase::Closed(Verdict::Granted) => pack_as(session, GRANTED, 0),
        Phase::Closed(Verdict::Denied) => pack_as(session, DENIED, 0),
    }
}

// With the phase's tag, and what is asked.
fn pack_as(session: Session, tag: u8, asked: u16) -> [u8; RECORD_BYTES]
    ensures { result ≡ packed_as (session_of session) tag asked }
{
    let [request_low, request_high] = session.request.to_le_bytes();
    let [shown_low, shown_high] = session.shown.to_le_bytes();
    let [declined_low, declined_high] = session.declined.to_le_bytes();
    let [asked_low, asked_high] = asked.to_le_bytes();
    [
        request_low,
        request_high,
        shown_low,
        shown_high,
        declined_low,
        declined_high,
        session.count,
        tag,
        asked_low,
        asked_high,
    ]
}
