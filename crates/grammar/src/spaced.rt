// A grammar over another: its loose rules allow blanks between their parts.
ghost use Rattle.std.specs.Prelude.{◌≡◌};
ghost use Rattle.grammar.specs.Spaced.{spaced_meaning, has_room, spread_count, told_at, blank_symbol};
ghost use Rattle.grammar.specs.SpacedBounds.{spaced_bounded};

use crate::blank::{BLANK_RULES, BlankSymbol};
use crate::{Grammar, Mark, Part};

#[derive(Clone, Copy)]
pub struct Spaced<B> {
    below: B,
}

// How a rule number is told: as in the grammar below; with blanks between the parts, of which there are so many below; or as the
// rule of the blank symbol with this number.
#[derive(Clone, Copy)]
enum Told {
    AsBelow,
    Spread(u8),
    Blank(u16),
}

impl<B: Grammar> Spaced<B> {
    pub fn new(below: B) -> Spaced<B>
        ensures { result.below ≡ below }
    {
        Spaced { below }
    }

    // Whether one symbol and the blank rules more are still within a grammar's bounds.
    fn has_room(&self) -> bool
        ensures { result ≡ has_room (B.Grammar.meaning self.now.below) }
    {
        self.below.rules() <= 1024 - BLANK_RULES && self.below.symbols() < 256
    }

    fn blank(&self) -> BlankSymbol
        ensures { result.symbol ≡ blank_symbol (B.Grammar.meaning self.now.below) }
    {
        BlankSymbol {
            symbol: self.below.symbols(),
        }
    }

    // How many parts the rule has below, if it gets blanks.
    fn spread(&self, rule: u16) -> Option<u8>
        ensures { result ≡ spread_count ((B.Grammar.meaning self.now.below).rule rule) }
    {
        let mark = self.below.mark(rule)?;
        let count = self.below.parts(rule)?;
        match mark {
            Mark::Loose if 2 <= count && count <= 128 => Some(count),
            _ => None,
        }
    }

    fn told(&self, rule: u16) -> Told
        ensures { result ≡ told_at (B.Grammar.meaning self.now.below) rule }
    {
        if !self.has_room() {
            return Told::AsBelow;
        }
        let rules = self.below.rules();
        if rule >= rules {
            return Told::Blank(rule - rules);
        }
        match self.spread(rule) {
            Some(count) => Told::Spread(count),
            None => Told::AsBelow,
        }
    }
}

impl<B: Grammar> Grammar for Spaced<B> {
    ghost meaning = { λ x. spaced_meaning (B.Grammar.meaning x.below) };

    ghost bounds = { λ x. spaced_bounded (B.Grammar.meaning x.below) (B.Grammar.bounds x.below) };

    fn start(&self) -> u16 {
        self.below.start()
    }

    fn symbols(&self) -> u16 {
        let symbols = self.below.symbols();
        if self.has_room() {
            symbols + 1
        } else {
            symbols
        }
    }

    fn rules(&self) -> u16 {
        let rules = self.below.rules();
        if self.has_room() {
            rules + BLANK_RULES
        } else {
            rules
        }
    }

    fn left(&self, rule: u16) -> Option<u16> {
        match self.told(rule) {
            Told::AsBelow | Told::Spread(_) => self.below.left(rule),
            Told::Blank(n) => self.blank().left(n),
        }
    }

    fn mark(&self, rule: u16) -> Option<Mark> {
        match self.told(rule) {
            Told::AsBelow => self.below.mark(rule),
            Told::Spread(_) => Some(Mark::Tight),
            Told::Blank(n) => self.blank().mark(n),
        }
    }

    fn parts(&self, rule: u16) -> Option<u8> {
        match self.told(rule) {
            Told::AsBelow => self.below.parts(rule),
            Told::Spread(count) => Some(count - 1 + count),
            Told::Blank(n) => self.blank().parts(n),
        }
    }

    fn part(&self, rule: u16, k: u8) -> Option<Part> {
        match self.told(rule) {
            Told::AsBelow => self.below.part(rule, k),
            Told::Spread(_) if k % 2 == 0 => self.below.part(rule, k / 2),
            Told::Spread(count) if k / 2 + 1 < count => Some(Part::Symbol(self.below.symbols())),
            Told::Spread(_) => None,
            Told::Blank(n) => self.blank().part(n, k),
        }
    }
}
