// Link tables and packed tables as bytes, for the tests of what reads them.
use crate::narrow;
use crate::plain::{Piece, Plain, Rule};
use std::alloc::{AllocError, Global};

// A record of a link table. Its kind is a bare number, so that a test can write one that is none.
#[derive(Clone, Copy)]
pub struct Record {
    pub kind: u8,
    pub zero: u8,
    pub value: u16,
    pub child: u16,
    pub sibling: u16,
}

impl Record {
    pub fn rule(value: u16, child: u16, sibling: u16) -> Record {
        Record {
            kind: 1,
            zero: 0,
            value,
            child,
            sibling,
        }
    }

    pub fn leaf(value: u16, sibling: u16) -> Record {
        Record {
            kind: 2,
            zero: 0,
            value,
            child: 0,
            sibling,
        }
    }
}

// The records of 7@5 as docs/formats.md shows them, but with that link as the sibling of record 2, where 4 is right.
pub fn seven_at_five(sibling: u16) -> [Record; 7] {
    [
        Record::rule(0, 1, 0),
        Record::rule(2, 2, 0),
        Record::rule(3, 3, sibling),
        Record::leaf(55, 0),
        Record::leaf(64, 5),
        Record::rule(3, 6, 0),
        Record::leaf(53, 0),
    ]
}

pub fn write_records(heap: Global, records: &[Record]) -> Result<Vec<u8>, AllocError> {
    let mut table = Vec::new(heap);
    for record in records {
        table.extend_from_slice(&[record.kind, record.zero])?;
        table.extend_from_slice(&record.value.to_be_bytes())?;
        table.extend_from_slice(&record.child.to_be_bytes())?;
        table.extend_from_slice(&record.sibling.to_be_bytes())?;
    }
    Ok(table)
}

// The most parts of a packed rule.
pub const MOST_PARTS: usize = 15;

// The packed table of a grammar without gaps.
pub fn write_table(heap: Global, grammar: &Plain) -> Result<Vec<u8>, AllocError> {
    let mut table = Vec::new(heap);
    table.extend_from_slice(&grammar.symbols.to_be_bytes())?;
    table.extend_from_slice(&narrow(grammar.rules.len()).to_be_bytes())?;
    table.extend_from_slice(&grammar.start.to_be_bytes())?;
    table.extend_from_slice(&[0, 0])?;
    for rule in grammar.rules.iter().flatten() {
        write_row(&mut table, rule)?;
    }
    Ok(table)
}

fn write_row(table: &mut Vec<u8>, rule: &Rule) -> Result<(), AllocError> {
    let count = u8::try_from(rule.pieces.len()).unwrap_or(u8::MAX);
    let mut slots = [[0; 4]; MOST_PARTS];
    for (slot, piece) in slots.iter_mut().zip(rule.pieces.iter()) {
        *slot = slot_of(*piece);
    }
    table.extend_from_slice(&rule.left.to_be_bytes())?;
    table.extend_from_slice(&[u8::from(rule.loose), count])?;
    table.extend_from_slice(slots.as_flattened())
}

fn slot_of(piece: Piece) -> [u8; 4] {
    match piece {
        Piece::Symbol(symbol) => {
            let [high, low] = symbol.to_be_bytes();
            [1, 0, high, low]
        }
        Piece::Range(low, high) => [2, low, high, 0],
        Piece::Except(x, y, z) => [3, x, y, z],
    }
}
