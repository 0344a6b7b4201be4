// One vector: a set of credentials and a policy.
use disclosure::disclosable;
use model::model;
use policy::refusal::Refusal;
use reading::read_full;
use std::io::Read;

// Room for 127 records.
const MOST_BYTES: usize = 2286;

// Reads a vector and prints its line; false if there is no whole vector left, or too large a one.
pub(crate) fn run(rt: &impl Print, from: &mut impl Read, number: u64) -> bool {
    let mut start = [0u8; 3];
    if read_full(from, &mut start) < 3 {
        return false;
    }
    let [low, high, records] = start;
    let credentials = u16::from_le_bytes([low, high]);
    let bytes = 18 * usize::from(records);
    let mut space = [0u8; MOST_BYTES];
    if bytes > MOST_BYTES || read_full(from, &mut space[..bytes]) < bytes {
        return false;
    }
    line(rt, number, credentials, &space[..bytes]);
    true
}

fn line(rt: &impl Print, number: u64, credentials: u16, policy: &[u8]) {
    let _ = print!(rt; "vector {number} credentials {credentials:04x}");
    let _ = match sets(rt, policy, credentials) {
        Ok(set) => println!(rt; " disclosable {set:04x}"),
        Err(refusal) => println!(rt; " refused {} at {}", refusal.number(), refusal.record()),
    };
}

// Prints the model, and gives the disclosable set.
fn sets(rt: &impl Print, policy: &[u8], credentials: u16) -> Result<u16, Refusal> {
    let atoms = model(policy, credentials)?;
    let _ = print!(rt; " model {:016x}", atoms.bits);
    disclosable(policy, credentials)
}
