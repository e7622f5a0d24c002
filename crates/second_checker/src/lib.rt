// A second checker of cues and a second cue memory, written from docs/ alone and another way than the product, to be compared with it.
// It has nothing of the product in it: this crate uses no other.
#![tactic(auto)]

pub mod answers;
pub mod failure;
mod judge;
pub mod line;
pub mod numbers;
pub mod plain;
pub mod reading;
pub mod sheet;
pub mod table;
pub mod writing;

use std::fmt;

// One event of a guide.
#[derive(Clone, Copy, PartialEq, Eq)]
pub enum Move {
    Enter(u16),
    Byte(u8),
    Leave,
}

// Four numbers of two bytes each, the higher byte first.
pub(crate) fn pairs(bytes: &[u8; 8]) -> [u16; 4] {
    let [a, b, c, d, e, f, g, h] = *bytes;
    [[a, b], [c, d], [e, f], [g, h]].map(u16::from_be_bytes)
}

impl fmt::Display for Move {
    fn fmt<W: fmt::Write>(&self, f: &mut fmt::Formatter<W>) -> fmt::Result {
        match self {
            Move::Enter(rule) => write!(f, "enter {rule}"),
            Move::Byte(byte) => write!(f, "byte {byte}"),
            Move::Leave => write!(f, "leave"),
        }
    }
}

// The number in 16 bits; the largest of these where it has more.
pub fn narrow(number: usize) -> u16 {
    u16::try_from(number).unwrap_or(u16::MAX)
}
