// The second reading of packed tables.
use crate::failure::Failure;
use crate::pairs;
use crate::plain::{Piece, Plain, Rule};
use std::alloc::Global;

const HEADER: usize = 8;

const ROW: usize = 64;

const SLOT: usize = 4;

// What is wrong with a table; what is wrong with a row comes with its rule number.
#[derive(Clone, Copy, PartialEq, Eq)]
pub enum TableFlaw {
    Length,
    Header,
    Head(usize),
    Part(usize),
    Padding(usize),
}

impl TableFlaw {
    pub fn number(self) -> u8 {
        match self {
            TableFlaw::Length => 51,
            TableFlaw::Header => 52,
            TableFlaw::Head(_) => 53,
            TableFlaw::Part(_) => 54,
            TableFlaw::Padding(_) => 55,
        }
    }

    // The rule concerned; 0 where it is the whole table.
    pub fn rule(self) -> usize {
        match self {
            TableFlaw::Length | TableFlaw::Header => 0,
            TableFlaw::Head(rule) | TableFlaw::Part(rule) | TableFlaw::Padding(rule) => rule,
        }
    }
}

impl From<TableFlaw> for Failure<TableFlaw> {
    fn from(flaw: TableFlaw) -> Failure<TableFlaw> {
        Failure::Refused(flaw)
    }
}

// The grammar of a table, or what is wrong with it.
pub fn read_table(heap: Global, table: &[u8]) -> Result<Plain, Failure<TableFlaw>> {
    let (header, rows) = table
        .split_first_chunk::<HEADER>()
        .ok_or(TableFlaw::Length)?;
    let [symbols, count, start, zero] = pairs(header);
    if count > 1_000 || rows.len() != usize::from(count) * ROW {
        return Err(TableFlaw::Length.into());
    }
    if symbols < 1 || symbols > 256 || start >= symbols || zero != 0 {
        return Err(TableFlaw::Header.into());
    }
    let mut rules = Vec::new(heap);
    for (number, row) in rows.chunks_exact(ROW).enumerate() {
        rules.push(Some(read_row(heap, number, row, symbols)?))?;
    }
    Ok(Plain {
        start,
        symbols,
        rules,
    })
}

fn read_row(
    heap: Global,
    number: usize,
    row: &[u8],
    symbols: u16,
) -> Result<Rule, Failure<TableFlaw>> {
    let bad_head = TableFlaw::Head(number);
    let (head, slots) = row.split_first_chunk::<SLOT>().ok_or(bad_head)?;
    let [high, low, mark, count] = *head;
    let left = u16::from_be_bytes([high, low]);
    if left >= symbols || mark > 1 {
        return Err(bad_head.into());
    }
    let (parts, padding) = slots
        .split_at_checked(usize::from(count) * SLOT)
        .ok_or(bad_head)?;
    let mut pieces = Vec::new(heap);
    for slot in parts.chunks_exact(SLOT) {
        pieces.push(read_piece(slot, symbols).ok_or(TableFlaw::Part(number))?)?;
    }
    if padding.iter().any(|byte| *byte != 0) {
        return Err(TableFlaw::Padding(number).into());
    }
    Ok(Rule {
        left,
        loose: mark == 1,
        pieces,
    })
}

fn read_piece(slot: &[u8], symbols: u16) -> Option<Piece> {
    match slot {
        [1, 0, high, low] => {
            let symbol = u16::from_be_bytes([*high, *low]);
            (symbol < symbols).then_some(Piece::Symbol(symbol))
        }
        [2, low, high, 0] if low <= high => Some(Piece::Range(*low, *high)),
        [3, x, y, z] => Some(Piece::Except(*x, *y, *z)),
        _ => None,
    }
}
