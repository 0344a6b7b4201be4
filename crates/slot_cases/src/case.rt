// One case. First how long the start of its line, the policy and the table are, and what is asked. Then these three.
use crate::input::Asked;
use crate::print;
use reading::{number, read_full};
use std::io::Read;
use table_wire::{SLOT_BYTES, open_at, preview_at, round_at};

// What is asked, as a case has it: a byte, and no enum, which would be made only to be tested below.
const OPENING: u8 = 1;

const PREVIEW: u8 = 3;

// What stands in a preview before it is written.
const OTHER: u8 = 0xa5;

// Reads a case and prints its line; false if there is none left, or no room for it.
pub(crate) fn run(
    rt: &impl Print,
    from: &mut impl Read,
    space: &mut [u8],
    table: &mut [u8],
) -> bool {
    let start = usize::from(number(from));
    if start == 0 {
        return false;
    }
    let policy = usize::from(number(from));
    let bytes = usize::from(number(from));
    let asked = Asked::read(from);
    let end = start + policy;
    if end > space.len() || bytes > table.len() {
        return false;
    }
    read_full(from, &mut space[..end]);
    read_full(from, &mut table[..bytes]);
    line(rt, start, asked, &space[..end], &mut table[..bytes]);
    true
}

// The line of a case, with the policy after the start.
fn line(rt: &impl Print, start: usize, asked: Asked, named: &[u8], table: &mut [u8]) {
    if start <= named.len() {
        print::text(rt, &named[..start]);
        answer(rt, asked, &named[start..], table);
        let _ = println!(rt; "");
    }
}

// A preview, or an opening or a round and the table after it.
fn answer(rt: &impl Print, asked: Asked, policy: &[u8], table: &mut [u8]) {
    if asked.operation == PREVIEW {
        preview(rt, asked, policy, table);
    } else {
        operation(rt, asked, policy, table);
        print::bytes(rt, table);
    }
}

// An opening, or else a round.
fn operation(rt: &impl Print, asked: Asked, policy: &[u8], table: &mut [u8]) {
    let slot = asked.slot;
    if asked.operation == OPENING {
        print::opened(rt, open_at(table, slot, asked.owner, asked.word));
    } else {
        print::round(rt, round_at(policy, table, slot, asked.word));
    }
}

// The reply, the table, and the preview, in which other bytes stood before.
fn preview(rt: &impl Print, asked: Asked, policy: &[u8], table: &[u8]) {
    let mut left = [OTHER; SLOT_BYTES];
    print::round(
        rt,
        preview_at(policy, table, asked.slot, asked.word, &mut left),
    );
    print::bytes(rt, table);
    print::bytes(rt, &left);
}
