// One case: a name, a set of credentials and a policy.
ghost use Rattle.std.specs.Prelude.{◌<◌};
ghost use Rattle.policy.specs.Types.{AcceptedWith};

use crate::{access, disclosure, together};
use arrays::{LevelRules, RuleArrays};
use atoms::AtomSet;
use layout::access_rules;
use policy::examine;
use reading::{next, read_full};
use std::io::Read;

// Reads a case and prints its line; false if there is none left, or no room for it.
pub(crate) fn run(rt: &impl Print, from: &mut impl Read, space: &mut [u8]) -> bool {
    let letters = byte(from);
    letters != 0 && named(rt, from, space, letters) && answered(rt, from, space)
}

// The name, so many letters.
fn named(rt: &impl Print, from: &mut impl Read, space: &mut [u8], letters: usize) -> bool {
    if letters > space.len() {
        return false;
    }
    read_full(from, &mut space[..letters]);
    let _ = rt.write_all(&space[..letters]);
    let _ = print!(rt; ":");
    true
}

// The credentials and the policy.
fn answered(rt: &impl Print, from: &mut impl Read, space: &mut [u8]) -> bool {
    // A byte at a time, as the input may end between them and go on.
    let [low]: [u8; 1] = next(from);
    let [high]: [u8; 1] = next(from);
    let credentials = u16::from_le_bytes([low, high]);
    let bytes = 18 * byte(from);
    if bytes > space.len() {
        return false;
    }
    read_full(from, &mut space[..bytes]);
    line(rt, &space[..bytes], credentials);
    true
}

// The next byte; 0 at the end of the input.
fn byte(from: &mut impl Read) -> usize
    ensures { result < 256 }
{
    let [byte]: [u8; 1] = next(from);
    usize::from(byte)
}

// The rest of the line.
fn line(rt: &impl Print, policy: &[u8], credentials: u16) {
    let _ = print!(rt; " credentials {credentials:04x}");
    match examine(policy) {
        Ok(levels) => counts(rt, policy, &levels, credentials),
        Err(refusal) => {
            let _ = println!(rt; " refused {} at {}", refusal.number(), refusal.record());
        }
    }
}

// The counts of an accepted policy, whose access rules keep these levels.
fn counts(rt: &impl Print, policy: &[u8], levels: &[u8; 64], credentials: u16)
    requires { AcceptedWith policy.now levels.now }
{
    let mut laid = RuleArrays::EMPTY;
    let starts = access_rules(policy, levels, &mut laid);
    let rules = LevelRules {
        rules: &laid,
        starts: &starts,
    };
    let shown = AtomSet::credentials(credentials);
    access::closed(rt, &rules, shown);
    disclosure::closed(rt, policy, shown);
    together::closed(rt, &rules, credentials);
    let _ = println!(rt; "");
}
