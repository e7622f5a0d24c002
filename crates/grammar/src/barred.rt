// A grammar over another: each barred rule number is a gap.
ghost use Rattle.std.specs.Prelude.{◌≡◌, if◌then◌else◌, Some, None};
ghost use Rattle.grammar.specs.Barred.{barred_meaning, refusal_number, bar_answer, is_barred, Bars, NoneBarred};
ghost use Rattle.grammar.specs.BarredBounds.{barred_bounded};

use crate::{Grammar, Mark, Part};

#[derive(Clone, Copy, PartialEq, Eq)]
pub enum BarRefusal {
    NumberTooLarge,
}

impl BarRefusal {
    // The number that the refusal is reported with.
    pub fn number(self) -> u8
        ensures { result ≡ refusal_number self }
    {
        match self {
            BarRefusal::NumberTooLarge => 56,
        }
    }
}

// The set of barred rule numbers: a flag for each number that can be barred.
#[derive(Clone, Copy)]
struct BarSet {
    flags: [bool; 1024],
}

impl BarSet {
    fn new() -> BarSet
        ensures { NoneBarred result.flags }
    {
        BarSet {
            flags: [false; 1024],
        }
    }

    fn has(&self, rule: u16) -> bool
        ensures { result ≡ is_barred self.now.flags rule }
    {
        self.flags.get(rule as usize).copied().unwrap_or(false)
    }

    fn add(&mut self, rule: u16) -> Result<(), BarRefusal>
        ensures answer { result ≡ bar_answer rule }
        ensures set { Bars rule self.old.flags self.new.flags }
    {
        // By index: after a write through `get_mut`, the proof that the other flags stay did not close.
        if rule >= 1024 {
            return Err(BarRefusal::NumberTooLarge);
        }
        self.flags[rule as usize] = true;
        Ok(())
    }
}

#[derive(Clone, Copy)]
pub struct Barred<B> {
    below: B,
    set: BarSet,
}

impl<B: Grammar> Barred<B> {
    // At first no rule is barred.
    pub fn new(below: B) -> Barred<B>
        ensures below { result.below ≡ below }
        ensures none { NoneBarred result.set.flags }
    {
        Barred {
            below,
            set: BarSet::new(),
        }
    }

    // Makes the rule number a gap. A number not below 1,024 is refused, and nothing changes.
    pub fn bar(&mut self, rule: u16) -> Result<(), BarRefusal>
        ensures answer { result ≡ bar_answer rule }
        ensures below { self.new.below ≡ self.old.below }
        ensures set { Bars rule self.old.set.flags self.new.set.flags }
    {
        self.set.add(rule)
    }

    // The rule number again, unless it is barred.
    fn unbarred(&self, rule: u16) -> Option<u16>
        ensures { result ≡ (if is_barred self.now.set.flags rule then None else Some rule) }
    {
        (!self.set.has(rule)).then_some(rule)
    }
}

impl<B: Grammar> Grammar for Barred<B> {
    ghost meaning = { λ x. barred_meaning x.set.flags (B.Grammar.meaning x.below) };

    ghost bounds = { λ x. barred_bounded x.set.flags (B.Grammar.meaning x.below) (B.Grammar.bounds x.below) };

    fn start(&self) -> u16 {
        self.below.start()
    }

    fn symbols(&self) -> u16 {
        self.below.symbols()
    }

    fn rules(&self) -> u16 {
        self.below.rules()
    }

    fn left(&self, rule: u16) -> Option<u16> {
        self.below.left(self.unbarred(rule)?)
    }

    fn mark(&self, rule: u16) -> Option<Mark> {
        self.below.mark(self.unbarred(rule)?)
    }

    fn parts(&self, rule: u16) -> Option<u8> {
        self.below.parts(self.unbarred(rule)?)
    }

    fn part(&self, rule: u16, k: u8) -> Option<Part> {
        self.below.part(self.unbarred(rule)?, k)
    }
}
