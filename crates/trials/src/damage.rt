// Damage to what was written.
use crate::random::Random;
use second_checker::writing::Record;
use second_checker::{Move, narrow};
use std::alloc::{AllocError, Global};

// One item is dropped, doubled, swapped with another, put in the new one's place, or joined by it; or all behind one are dropped.
pub(crate) fn shake<T: Copy>(
    random: &mut Random,
    items: &mut Vec<T>,
    new: T,
) -> Result<(), AllocError> {
    let length = items.len();
    let i = random.below(length);
    let j = random.below(length);
    if i >= length || j >= length {
        items.push(new)?;
        return Ok(());
    }
    match random.below(12) {
        0 | 1 => {
            let _ = items.remove(i);
        }
        2 | 3 => {
            let item = items[i];
            items.insert(i, item)?
        }
        4 | 5 => items.swap(i, j),
        6 | 7 | 8 => items[i] = new,
        9 => items.insert(i, new)?,
        10 => items.push(new)?,
        _ => items.truncate(i),
    }
    Ok(())
}

pub(crate) fn random_move(random: &mut Random) -> Move {
    match random.below(4) {
        0 => Move::Enter(narrow(random.below(12))),
        1 => Move::Enter(random.one_of(&[7, 8, 10, 999, 1_000, 1_001, 1_023, 9_999])),
        2 => Move::Byte(random.byte()),
        _ => Move::Leave,
    }
}

// Bytes that mean something in a listing come more often than others.
pub(crate) fn random_byte(random: &mut Random) -> u8 {
    match random.below(10) {
        0 => b'(',
        1 => b')',
        2 => b'=',
        3 | 4 => 10,
        5 => b'0',
        6 => b'A',
        7 => 0,
        _ => random.byte(),
    }
}

// A field of the record with that number gets another value, often one that is off by one.
pub(crate) fn bend(random: &mut Random, records: &mut Vec<Record>, number: usize) {
    let field = random.below(6);
    let wild = random.one_of(&[0, 1, 255, 256, 9_999, 10_000, 65_535]);
    let change = random.one_of(&[1, 1, 2, 65_535, 65_535]);
    if let Some(record) = records.get_mut(number) {
        match field {
            0 => record.kind = record.kind.wrapping_add(random.byte() % 4),
            1 => record.zero = 1,
            2 => record.value = wild,
            3 => record.child = record.child.wrapping_add(change),
            4 => record.sibling = record.sibling.wrapping_add(change),
            _ => record.sibling = wild,
        }
    }
}

// The bytes, and so many of the same byte behind them that there are as many in all as wanted.
pub(crate) fn pad(
    heap: Global,
    bytes: Vec<u8>,
    byte: u8,
    wanted: usize,
) -> Result<Vec<u8>, AllocError> {
    let mut padded = bytes;
    let missing = wanted.saturating_sub(padded.len());
    let more = vec![in heap; byte; missing]?;
    padded.extend_from_slice(more.as_slice())?;
    Ok(padded)
}
