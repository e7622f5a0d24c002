// The second reading of guides: from the bytes to all the moves and the finish at once.
use crate::answers::{Reason, Refusal, Said};
use crate::failure::{Failure, answered};
use crate::{Move, pairs};
use std::alloc::{AllocError, Global};
use std::str;

// What a guide's bytes have wrong.
#[derive(Clone, Copy, PartialEq, Eq, PartialOrd, Ord)]
pub enum Wrong {
    LongListing,
    Line,
    TableSize,
    Record,
    Link,
    Depth,
    Leftover,
}

// What is wrong, and where in the bytes.
#[derive(Clone, Copy, PartialEq, Eq, PartialOrd, Ord)]
pub struct Fault {
    pub wrong: Wrong,
    pub place: usize,
}

// The moves, and how they end: well, or at a fault.
#[derive(Drop)]
pub struct Guided {
    pub moves: Vec<Move>,
    pub end: Result<(), Fault>,
}

impl Wrong {
    pub(crate) fn number(self) -> u8 {
        match self {
            Wrong::LongListing => 31,
            Wrong::Line => 32,
            Wrong::TableSize => 41,
            Wrong::Record => 42,
            Wrong::Link => 43,
            Wrong::Depth => 44,
            Wrong::Leftover => 45,
        }
    }

    fn at(self, place: usize) -> Fault {
        Fault { wrong: self, place }
    }
}

impl From<Fault> for Failure<Fault> {
    fn from(fault: Fault) -> Failure<Fault> {
        Failure::Refused(fault)
    }
}

impl Guided {
    // What the guide says next behind a call with that answer: an accepted load took as many answers as it has steps, one that the
    // check refused took one more than its events, and any other call took none.
    pub fn told_behind(&self, said: Result<Said, Refusal>) -> Result<Option<Move>, Fault> {
        let taken = match said {
            Ok(Said::Loaded(loaded)) => loaded.steps,
            Err(
                Refusal {
                    reason: Reason::Flaw(_),
                    events,
                    ..
                },
            ) => events.saturating_add(1),
            _ => 0,
        };
        match self.moves.get(taken) {
            Some(found) => Ok(Some(*found)),
            None => self.end.map(|()| None),
        }
    }
}

const MOST_BYTES: usize = 64_000;

const RECORD: usize = 8;

// The most nodes that a link table may have open.
const MOST_OPEN: usize = 256;

pub fn read_listing(heap: Global, bytes: &[u8]) -> Result<Guided, AllocError> {
    let mut moves = Vec::new(heap);
    let end = answered(read_lines(bytes, &mut moves))?;
    Ok(Guided { moves, end })
}

pub fn read_link_table(heap: Global, table: &[u8]) -> Result<Guided, AllocError> {
    let mut moves = Vec::new(heap);
    let end = answered(read_records(heap, table, &mut moves))?;
    Ok(Guided { moves, end })
}

fn read_lines(bytes: &[u8], moves: &mut Vec<Move>) -> Result<(), Failure<Fault>> {
    if bytes.len() > MOST_BYTES {
        return Err(Wrong::LongListing.at(0).into());
    }
    let mut place = 0;
    for line in bytes.split_inclusive(|byte| *byte == 10) {
        moves.push(read_line(line).ok_or(Wrong::Line.at(place))?)?;
        place += line.len();
    }
    Ok(())
}

// A line with its byte 10.
fn read_line(line: &[u8]) -> Option<Move> {
    match line {
        [b')', 10] => Some(Move::Leave),
        [b'=', high, low, 10] => {
            let byte = hex_value(*high)?
                .checked_mul(16)?
                .checked_add(hex_value(*low)?)?;
            Some(Move::Byte(byte))
        }
        [b'(', digits @ .., 10] => Some(Move::Enter(decimal(digits)?)),
        _ => None,
    }
}

// A number of at most four digits, the first of which is 0 only where it is alone.
fn decimal(digits: &[u8]) -> Option<u16> {
    match digits {
        [b'0'] => Some(0),
        [b'1'..=b'9', ..] if digits.len() <= 4 => str::from_utf8(digits).ok()?.parse().ok(),
        _ => None,
    }
}

fn hex_value(digit: u8) -> Option<u8> {
    match digit {
        b'0'..=b'9' => Some(digit - b'0'),
        b'a'..=b'f' => Some(digit - b'a' + 10),
        _ => None,
    }
}

// A record: its move, its first child and its next sibling, where 0 is none.
#[derive(Clone, Copy)]
struct Record {
    told: Move,
    child: u16,
    sibling: u16,
}

// The record, unless it is out of form.
fn read_record(record: &[u8]) -> Option<Record> {
    let [_, value, child, sibling] = pairs(record.as_array()?);
    let told = match record {
        [1, 0, ..] if value <= 9_999 => Move::Enter(value),
        [2, 0, ..] if child == 0 => Move::Byte(u8::try_from(value).ok()?),
        _ => return None,
    };
    Some(Record {
        told,
        child,
        sibling,
    })
}

fn read_records(heap: Global, table: &[u8], moves: &mut Vec<Move>) -> Result<(), Failure<Fault>> {
    if table.len() > MOST_BYTES || table.len() % RECORD != 0 {
        return Err(Wrong::TableSize.at(0).into());
    }
    // The siblings of the open nodes, and the link by which the records go on.
    let mut open = Vec::new(heap);
    let mut link = 0;
    for (place, record) in (0..table.len())
        .step_by(RECORD)
        .zip(table.chunks_exact(RECORD))
    {
        goes_on(link, place)?;
        let record = read_record(record).ok_or(Wrong::Record.at(place))?;
        link = match record.told {
            Move::Enter(_) => {
                if open.len() >= MOST_OPEN {
                    return Err(Wrong::Depth.at(place).into());
                }
                open.push(record.sibling)?;
                record.child
            }
            _ => record.sibling,
        };
        moves.push(record.told)?;
        while link == 0
            && let Some(sibling) = open.pop()
        {
            moves.push(Move::Leave)?;
            link = sibling;
        }
    }
    if link != 0 {
        return Err(Wrong::Link.at(table.len()).into());
    }
    Ok(())
}

// The next record stands at that place: the records before it have to lead there, but for the first, before which there is none.
fn goes_on(link: u16, place: usize) -> Result<(), Fault> {
    if usize::from(link) * RECORD == place {
        Ok(())
    } else if link == 0 {
        Err(Wrong::Leftover.at(place))
    } else {
        Err(Wrong::Link.at(place))
    }
}
