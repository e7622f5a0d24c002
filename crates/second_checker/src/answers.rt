// Answers to calls.
use crate::failure::Failure;
use crate::reading::Fault;
use std::fmt;

// What the check says of an accepted cue: its rule nodes, its bytes, and how many answers of the guide it took.
#[derive(Clone, Copy, PartialEq, Eq)]
pub struct Loaded {
    pub rules: usize,
    pub bytes: usize,
    pub steps: usize,
}

#[derive(Clone, Copy, PartialEq, Eq)]
pub enum Said {
    Loaded(Loaded),
    Cleared(u16),
    Fetched(usize),
    Free(usize),
}

// What can be wrong at one answer of a guide, in the order in which it is asked.
#[derive(Clone, Copy, PartialEq, Eq, PartialOrd, Ord)]
pub enum Flaw {
    GuideFault(Fault),
    TooManyEvents,
    WrongKind,
    NoRule,
    WrongSymbol,
    NoFrame,
    WrongByte,
    NotInText,
    TextOver,
}

#[derive(Clone, Copy, PartialEq, Eq)]
pub enum Reason {
    NumberOutside,
    AlreadyHeld,
    LongText,
    NoRoom,
    Flaw(Flaw),
    NotHeld,
    ShortBuffer,
    LongInput,
}

// A refusal, and how many events and bytes of the guide were well before it.
#[derive(Clone, Copy, PartialEq, Eq)]
pub struct Refusal {
    pub reason: Reason,
    pub events: usize,
    pub bytes: usize,
}

impl Flaw {
    fn number(self) -> u8 {
        match self {
            Flaw::GuideFault(_) => 5,
            Flaw::TooManyEvents => 6,
            Flaw::WrongKind => 7,
            Flaw::NoRule => 8,
            Flaw::WrongSymbol => 9,
            Flaw::NoFrame => 10,
            Flaw::WrongByte => 11,
            Flaw::NotInText => 12,
            Flaw::TextOver => 13,
        }
    }
}

impl Reason {
    pub(crate) fn number(self) -> u8 {
        match self {
            Reason::NumberOutside => 1,
            Reason::AlreadyHeld => 2,
            Reason::LongText => 3,
            Reason::NoRoom => 4,
            Reason::Flaw(flaw) => flaw.number(),
            Reason::NotHeld => 14,
            Reason::ShortBuffer => 15,
            Reason::LongInput => 16,
        }
    }
}

// A refusal before any event.
impl From<Reason> for Refusal {
    fn from(reason: Reason) -> Refusal {
        Refusal {
            reason,
            events: 0,
            bytes: 0,
        }
    }
}

impl From<Reason> for Failure<Refusal> {
    fn from(reason: Reason) -> Failure<Refusal> {
        Failure::Refused(Refusal::from(reason))
    }
}

impl From<Refusal> for Failure<Refusal> {
    fn from(refusal: Refusal) -> Failure<Refusal> {
        Failure::Refused(refusal)
    }
}

impl fmt::Display for Loaded {
    fn fmt<W: fmt::Write>(&self, f: &mut fmt::Formatter<W>) -> fmt::Result {
        let Loaded {
            rules,
            bytes,
            steps,
        } = self;
        write!(f, "ok rules={rules} bytes={bytes} steps={steps}")
    }
}

impl fmt::Display for Said {
    fn fmt<W: fmt::Write>(&self, f: &mut fmt::Formatter<W>) -> fmt::Result {
        match self {
            Said::Loaded(loaded) => write!(f, "{loaded}"),
            Said::Cleared(number) => write!(f, "ok cleared={number}"),
            Said::Fetched(length) => write!(f, "ok fetched={length}"),
            Said::Free(blocks) => write!(f, "ok free={blocks}"),
        }
    }
}
