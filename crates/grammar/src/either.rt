// One of two grammars, chosen when the program runs. One type for both, so that code over it stands once.
ghost use Rattle.grammar.specs.Either.{either_meaning};
ghost use Rattle.grammar.specs.EitherBounds.{either_bounded};

use crate::{Grammar, Mark, Part};

#[derive(Clone, Copy)]
pub enum Either<A, B> {
    First(A),
    Second(B),
}

impl<A: Grammar, B: Grammar> Grammar for Either<A, B> {
    ghost meaning = { either_meaning A.Grammar.meaning B.Grammar.meaning };

    ghost bounds = { either_bounded A.Grammar.meaning B.Grammar.meaning A.Grammar.bounds B.Grammar.bounds };

    fn start(&self) -> u16 {
        match self {
            Either::First(grammar) => grammar.start(),
            Either::Second(grammar) => grammar.start(),
        }
    }

    fn symbols(&self) -> u16 {
        match self {
            Either::First(grammar) => grammar.symbols(),
            Either::Second(grammar) => grammar.symbols(),
        }
    }

    fn rules(&self) -> u16 {
        match self {
            Either::First(grammar) => grammar.rules(),
            Either::Second(grammar) => grammar.rules(),
        }
    }

    fn left(&self, rule: u16) -> Option<u16> {
        match self {
            Either::First(grammar) => grammar.left(rule),
            Either::Second(grammar) => grammar.left(rule),
        }
    }

    fn mark(&self, rule: u16) -> Option<Mark> {
        match self {
            Either::First(grammar) => grammar.mark(rule),
            Either::Second(grammar) => grammar.mark(rule),
        }
    }

    fn parts(&self, rule: u16) -> Option<u8> {
        match self {
            Either::First(grammar) => grammar.parts(rule),
            Either::Second(grammar) => grammar.parts(rule),
        }
    }

    fn part(&self, rule: u16, k: u8) -> Option<Part> {
        match self {
            Either::First(grammar) => grammar.part(rule, k),
            Either::Second(grammar) => grammar.part(rule, k),
        }
    }
}
