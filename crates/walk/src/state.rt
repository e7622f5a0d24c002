// Where a walk stands between two answers.
ghost use Rattle.std.specs.Prelude.{◌≤◌};

pub mod kept;
pub mod turn;

// An open node: its rule, and the number of the part that is awaited next.
#[repr(C)]
#[derive(Clone, Copy)]
pub struct Frame {
    rule: u16,
    next: u8,
}

impl Frame {
    // An unused entry, for the memory that a walk is lent.
    pub const BLANK: Frame = Frame { rule: 0, next: 0 };
}

// How many nodes are open, and the rules entered, the text bytes used and the events accepted so far. The frames of the open nodes
// are kept in memory that the caller lends, in the same slots from one answer to the next.
#[derive(Clone, Copy)]
pub struct Walk {
    depth: usize,
    rules: u32,
    used: usize,
    events: u32,
    ghost opened: { depth ≤ rules },
    ghost entered: { rules ≤ events },
    ghost read: { used ≤ events },
    ghost few: { events ≤ 16000 },
}

// A walk that holds what it is lent, for as long as it lasts: a grammar, a text and the frames.
#[derive(Drop)]
pub struct LentWalk<'a, B> {
    grammar: &'a B,
    text: &'a [u8],
    frames: &'a mut [Frame],
    pub(crate) counts: Walk,
}
