// Two logs held against each other (document 02, R-1): reads the two files that are named and prints where they part, if they do.
#![tactic(auto)]

ghost use Rattle.std.specs.Prelude.{◌≡◌, IfSome, length};
ghost use Rattle.std.specs.Counts.{IsPrefixLen};

use log_comparison::compare::compare;
use std::env::FillError;
use std::rt::{Env, Files};

mod print;

// As much as a log may have; there is room for one byte more, which tells a longer file.
const MOST_BYTES: usize = 1048576;

const ROOM: usize = MOST_BYTES + 1;

fn main(rt: HostRuntime) {
    if !has_argument(&rt, 2) || has_argument(&rt, 3) {
        let _ = println!(rt; "usage: compare_logs FIRST SECOND");
        return;
    }
    let mut first = room();
    let Some(in_first) = log(&rt, 1, &mut first) else {
        return;
    };
    let mut second = room();
    let Some(in_second) = log(&rt, 2, &mut second) else {
        return;
    };
    print::compared(&rt, compare(&first[..in_first], &second[..in_second]));
}

fn room() -> [u8; ROOM]
    ensures { 1048577 ≡ length result }
{
    [0; ROOM]
}

// Whether there is an argument i; the program's name is argument 0.
fn has_argument(rt: &impl Env, i: usize) -> bool {
    let mut first_byte = [0u8; 1];
    !matches!(rt.arg(i, &mut first_byte), Err(FillError::NotPresent))
}

// Argument i, and how long it is: 0 where there is no room for it.
fn argument(rt: &impl Env, i: usize, space: &mut [u8; 4096]) -> usize
    ensures { IsPrefixLen result space.new }
{
    rt.arg(i, space).unwrap_or(0)
}

// Reads the log that argument i names, and says how many bytes there are; prints a line where it cannot be read or is too long.
fn log(rt: &(impl Env + Files + Print), i: usize, space: &mut [u8]) -> Option<usize>
    ensures { IfSome result (λ bytes. IsPrefixLen bytes space.new) }
{
    let mut given = [0u8; 4096];
    let length = argument(rt, i, &mut given);
    let name = &given[..length];
    let Some(bytes) = files::read(rt, name, space) else {
        print::named(rt, "cannot read ", name);
        return None;
    };
    if bytes > MOST_BYTES {
        print::named(rt, "too long ", name);
        return None;
    }
    Some(bytes)
}
