// What is asked in a case.
use reading::{next, number};
use std::io::Read;

// The operation, its slot, the owner, and the request or the shown set.
#[derive(Drop)]
pub(crate) struct Asked {
    pub(crate) operation: u8,
    pub(crate) slot: usize,
    pub(crate) owner: u8,
    pub(crate) word: u16,
}

impl Asked {
    // Numbers of one, four, one and two bytes, little-endian. That of four is read by halves, as the input may end between them and go on.
    pub(crate) fn read(from: &mut impl Read) -> Asked {
        Asked {
            operation: byte(from),
            slot: usize::from(number(from)) + 65536 * usize::from(number(from)),
            owner: byte(from),
            word: number(from),
        }
    }
}

fn byte(from: &mut impl Read) -> u8 {
    let [byte]: [u8; 1] = next(from);
    byte
}
