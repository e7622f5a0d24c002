// The pieces of a grammar as text, for people to read.
ghost use Rattle.std.specs.Prelude.{◌≡◌, Some};
ghost use Rattle.grammar.specs.Text.{part_text, mark_text};

use crate::{Mark, Part};
use std::fmt;

impl Mark {
    pub fn word(self) -> &'static str
        ensures { result.now ≡ mark_text self }
    {
        match self {
            Mark::Loose => "loose",
            Mark::Tight => "tight",
        }
    }
}

impl fmt::Display for Mark {
    ghost output = { λ mark. Some (mark_text mark) };

    fn fmt<W: fmt::Write>(&self, f: &mut fmt::Formatter<W>) -> fmt::Result {
        f.write_str(self.word())
    }
}

impl fmt::Display for Part {
    ghost output = { λ part. Some (part_text part) };

    fn fmt<W: fmt::Write>(&self, f: &mut fmt::Formatter<W>) -> fmt::Result {
        match self {
            Part::Symbol(symbol) => write!(f, "symbol {symbol}"),
            Part::Range { low, high } => write!(f, "byte {low} to {high}"),
            Part::Except(x, y, z) => write!(f, "byte except {x}, {y}, {z}"),
        }
    }
}
