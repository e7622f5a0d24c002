// Guides: what the editing machine tells of a parse tree, one answer at a time.
#![tactic(auto)]

ghost use Rattle.std.specs.Prelude.{◌≡◌};
ghost use Rattle.guide.specs.Told.{Told, InRange, answer, behind, defect_number, defect_at};

mod lines;
pub mod link_table;
pub mod listing;
mod records;
pub mod stack;
mod steps;
pub mod written;

// One event of a walk: a rule node is entered, a leaf's byte is told, or the newest open node is left.
#[derive(Clone, Copy, PartialEq, Eq)]
pub enum Event {
    Enter(u16),
    Byte(u8),
    Leave,
}

// What is wrong with a guide's bytes.
#[derive(Clone, Copy, PartialEq, Eq)]
pub enum Defect {
    ListingTooLong,
    BadLine,
    TableLength,
    BadRecord,
    BadLink,
    TooManyOpen,
    RecordsUnread,
}

impl Defect {
    // The number under which the defect is reported.
    pub fn number(self) -> u8
        ensures { result ≡ defect_number self }
    {
        match self {
            Defect::ListingTooLong => 31,
            Defect::BadLine => 32,
            Defect::TableLength => 41,
            Defect::BadRecord => 42,
            Defect::BadLink => 43,
            Defect::TooManyOpen => 44,
            Defect::RecordsUnread => 45,
        }
    }

    // This defect at a place in the bytes.
    pub fn at(self, place: usize) -> Fault
        ensures { result ≡ defect_at self place }
    {
        Fault {
            defect: self,
            place,
        }
    }
}

// A defect, and the place in the guide's bytes at which it is.
#[derive(Clone, Copy, PartialEq, Eq)]
pub struct Fault {
    pub defect: Defect,
    pub place: usize,
}

// A guide by the events still to come and its finish. Whoever builds one shows which they are for its bytes, that they are in range,
// and that they are answered in their order.
pub trait Guide {
    ghost told: { Self → Told };

    ghost bounds: { (x : Self) → InRange (told x) };

    // Takes the next event. Where none is left, None is the end and an error is the guide's fault, and from then on the answer is always that.
    fn next(&mut self) -> Result<Option<Event>, Fault>
        ensures said { result ≡ answer (told self.old) }
        ensures goes { told self.new ≡ behind (told self.old) };
}
