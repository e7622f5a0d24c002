// The walk of a tree, and its three written forms: the text, the listing and the records of the link table.
use second_checker::writing::Record;
use second_checker::{Move, narrow};
use std::alloc::{AllocError, Global};

// The link of a record that the next node is to be tied to.
#[derive(Clone, Copy)]
enum Tie {
    ChildOf(usize),
    SiblingOf(usize),
}

// The bytes among the moves.
pub(crate) fn spell(heap: Global, moves: &[Move]) -> Result<Vec<u8>, AllocError> {
    let bytes = moves.iter().filter_map(|each| match each {
        Move::Byte(byte) => Some(*byte),
        Move::Enter(_) | Move::Leave => None,
    });
    bytes.collect(heap)
}

// How many nodes are open behind a move, of those open before it.
fn open_behind(open: usize, each: &Move) -> usize {
    match each {
        Move::Enter(_) => open.saturating_add(1),
        Move::Byte(_) => open,
        Move::Leave => open.saturating_sub(1),
    }
}

// How many nodes are open at most.
pub(crate) fn depth_of(moves: &[Move]) -> usize {
    let depths = moves.iter().scan(0, |open, each| {
        *open = open_behind(*open, each);
        Some(*open)
    });
    depths.max().unwrap_or(0)
}

// The record of the first node that is entered while as many nodes are open as a link table may have.
pub(crate) fn deeper_record(moves: &[Move]) -> Option<usize> {
    let mut open = 0;
    let event = moves.iter().position(|each| {
        let above = open;
        open = open_behind(open, each);
        above == 256 && matches!(each, Move::Enter(_))
    })?;
    let before = moves.iter().take(event);
    Some(before.filter(|each| **each != Move::Leave).count())
}

pub(crate) fn write_listing(heap: Global, moves: &[Move]) -> Result<Vec<u8>, AllocError> {
    let mut listing = Vec::new(heap);
    for each in moves {
        let line = match each {
            Move::Enter(rule) => format!(in heap; "({rule}\n")?,
            Move::Byte(byte) => format!(in heap; "={byte:02x}\n")?,
            Move::Leave => String::from_str(heap, ")\n")?,
        };
        listing.extend_from_slice(line.as_bytes())?;
    }
    Ok(listing)
}

// The records of the nodes. Moves whose brackets do not match are written as nearly as a table can.
pub(crate) fn records_of(heap: Global, moves: &[Move]) -> Result<Vec<Record>, AllocError> {
    let mut records = Vec::new(heap);
    let mut above = Vec::new(heap);
    let mut tie = None;
    for each in moves {
        let number = records.len();
        match each {
            Move::Enter(rule) => {
                tie_to(&mut records, tie, number);
                records.push(Record::rule(*rule, 0, 0))?;
                above.push(Tie::SiblingOf(number))?;
                tie = Some(Tie::ChildOf(number))
            }
            Move::Byte(byte) => {
                tie_to(&mut records, tie, number);
                records.push(Record::leaf(u16::from(*byte), 0))?;
                tie = Some(Tie::SiblingOf(number))
            }
            Move::Leave => tie = above.pop().or(tie),
        }
    }
    Ok(records)
}

// Ties the record with that number.
fn tie_to(records: &mut [Record], tie: Option<Tie>, number: usize) {
    let number = narrow(number);
    match tie {
        Some(Tie::ChildOf(parent)) => {
            if let Some(record) = records.get_mut(parent) {
                record.child = number;
            }
        }
        Some(Tie::SiblingOf(newest)) => {
            if let Some(record) = records.get_mut(newest) {
                record.sibling = number;
            }
        }
        None => {}
    }
}
