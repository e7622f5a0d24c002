// The rules of the symbol that stands for blanks. Whoever adds a blank byte adds its rule here and its byte in the specs.
ghost use Rattle.std.specs.Prelude.{◌≡◌};
ghost use Rattle.std.specs.List.{slice_get};
ghost use Rattle.grammar.specs.Meaning.{left_of, mark_of, count_of, part_of};
ghost use Rattle.grammar.specs.Spaced.{blank_rules};

use crate::{Mark, Part};

pub(crate) const BLANK_RULES: u16 = 2;

// Rule 0 has no parts. Each other rule is one blank byte and then the symbol again.
#[derive(Clone, Copy)]
pub(crate) struct BlankSymbol {
    pub(crate) symbol: u16,
}

impl BlankSymbol {
    pub(crate) fn left(self, n: u16) -> Option<u16>
        ensures { result ≡ left_of (slice_get (blank_rules self.symbol) n) }
    {
        (n < BLANK_RULES).then_some(self.symbol)
    }

    pub(crate) fn mark(self, n: u16) -> Option<Mark>
        ensures { result ≡ mark_of (slice_get (blank_rules self.symbol) n) }
    {
        (n < BLANK_RULES).then_some(Mark::Tight)
    }

    pub(crate) fn parts(self, n: u16) -> Option<u8>
        ensures { result ≡ count_of (slice_get (blank_rules self.symbol) n) }
    {
        match n {
            0 => Some(0),
            1 => Some(2),
            _ => None,
        }
    }

    pub(crate) fn part(self, n: u16, k: u8) -> Option<Part>
        ensures { result ≡ part_of (slice_get (blank_rules self.symbol) n) k }
    {
        match (n, k) {
            (1, 0) => Some(Part::only(b' ')),
            (1, 1) => Some(Part::Symbol(self.symbol)),
            _ => None,
        }
    }
}
