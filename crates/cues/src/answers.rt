// What the calls answer.
ghost use Rattle.std.specs.Prelude.{◌≡◌};
ghost use Rattle.cues.specs.Calls.{refusal_number, refusal_events, refusal_bytes};

use tree::verdict;
use tree::verdict::Accepted;

// Why a call is refused: the memory's own no, or that of the check of a guide.
#[derive(Clone, Copy, PartialEq, Eq)]
pub enum Refusal {
    Memory(memory::Refusal),
    Check(verdict::Refusal),
}

impl Refusal {
    // The number under which it is reported.
    pub fn number(self) -> u8
        ensures { result ≡ refusal_number self }
    {
        match self {
            Refusal::Memory(refusal) => refusal.number(),
            Refusal::Check(refusal) => refusal.reason.number(),
        }
    }

    // How many events were accepted when it came.
    pub fn events(self) -> u32
        ensures { result ≡ refusal_events self }
    {
        match self {
            Refusal::Memory(_) => 0,
            Refusal::Check(refusal) => refusal.events,
        }
    }

    // How many text bytes were used when it came.
    pub fn bytes(self) -> usize
        ensures { result ≡ refusal_bytes self }
    {
        match self {
            Refusal::Memory(_) => 0,
            Refusal::Check(refusal) => refusal.bytes,
        }
    }
}

impl From<memory::Refusal> for Refusal {
    ghost use Rattle.cues.specs.declared.answers.Refusal.TheVariants.{Memory};

    ghost from_gives = { λ refusal r. r ≡ Memory refusal };

    fn from(refusal: memory::Refusal) -> Refusal {
        Refusal::Memory(refusal)
    }
}

impl From<verdict::Refusal> for Refusal {
    ghost use Rattle.cues.specs.declared.answers.Refusal.TheVariants.{Check};

    ghost from_gives = { λ refusal r. r ≡ Check refusal };

    fn from(refusal: verdict::Refusal) -> Refusal {
        Refusal::Check(refusal)
    }
}

// What a request is answered: an accepted load's counts, the number that was cleared, the length that was fetched, or the free blocks.
#[derive(Clone, Copy, PartialEq, Eq)]
pub enum Answer {
    Loaded(Accepted),
    Cleared(u16),
    Fetched(usize),
    Free(u16),
}
