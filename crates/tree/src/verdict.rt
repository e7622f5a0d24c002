// What a check answers.
ghost use Rattle.std.specs.Prelude.{◌≡◌};
ghost use Rattle.tree.specs.Verdict.{reason_number};

use guide::Fault;

// Why a check refuses: the question that was the first to be answered no.
#[derive(Clone, Copy, PartialEq, Eq)]
pub enum Reason {
    GuideFault(Fault),
    TooManyEvents,
    NotAwaited,
    NoSuchRule,
    OtherSymbol,
    TooDeep,
    ByteNotAllowed,
    ByteNotNext,
    TextLeft,
}

impl Reason {
    // The number under which the reason is reported.
    pub fn number(self) -> u8
        ensures { result ≡ reason_number self }
    {
        match self {
            Reason::GuideFault(_) => 5,
            Reason::TooManyEvents => 6,
            Reason::NotAwaited => 7,
            Reason::NoSuchRule => 8,
            Reason::OtherSymbol => 9,
            Reason::TooDeep => 10,
            Reason::ByteNotAllowed => 11,
            Reason::ByteNotNext => 12,
            Reason::TextLeft => 13,
        }
    }
}

// A refusal: its reason, and how many events were accepted and text bytes used when it came.
#[derive(Clone, Copy, PartialEq, Eq)]
pub struct Refusal {
    pub reason: Reason,
    pub events: u32,
    pub bytes: usize,
}

// An acceptance: the tree's rule nodes, the text's bytes, and the answers taken from the guide, the end too.
#[derive(Clone, Copy, PartialEq, Eq)]
pub struct Accepted {
    pub rules: u32,
    pub bytes: usize,
    pub steps: u32,
}

pub type Verdict = Result<Accepted, Refusal>;
