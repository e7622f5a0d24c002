// Random grammars.
use crate::random::Random;
use second_checker::narrow;
use second_checker::plain::{Piece, Plain};
use second_checker::writing::MOST_PARTS;
use std::alloc::{AllocError, Global};

// What a random grammar is to be like: few short rules, rules of many parts, or as many symbols and rules as a table may have.
#[derive(Clone, Copy)]
pub enum Build {
    Small,
    Wide,
    Huge,
}

// The first rules, one for each symbol, are of bytes alone, so that every symbol has a tree. The others may name any symbol.
pub(crate) fn random_grammar(
    heap: Global,
    random: &mut Random,
    build: Build,
) -> Result<Plain, AllocError> {
    let (symbols, more) = match build {
        Build::Small => (random.between(1, 6), random.between(0, 12)),
        Build::Wide => (random.between(2, 4), random.between(4, 10)),
        Build::Huge => (random.between(254, 256), random.between(740, 744)),
    };
    let mut grammar = Plain {
        start: narrow(random.below(symbols)),
        symbols: narrow(symbols),
        rules: Vec::new(heap),
    };
    for left in 0..symbols {
        add_rule(heap, random, &mut grammar, build, left, 0)?;
    }
    for _ in 0..more {
        let left = random.below(symbols);
        add_rule(heap, random, &mut grammar, build, left, 50)?;
    }
    Ok(grammar)
}

// A rule of random parts, of which about so many in a hundred are symbols.
fn add_rule(
    heap: Global,
    random: &mut Random,
    grammar: &mut Plain,
    build: Build,
    left: usize,
    symbols_in_hundred: usize,
) -> Result<(), AllocError> {
    let count = match build {
        Build::Small | Build::Huge => random.one_of(&[0, 1, 1, 2, 2, 3, 4]),
        Build::Wide => random.between(8, MOST_PARTS),
    };
    let mut pieces = Vec::new(heap);
    for _ in 0..count {
        let piece = random_piece(random, usize::from(grammar.symbols), symbols_in_hundred);
        pieces.push(piece)?;
    }
    let loose = random.chance(50);
    grammar.add(heap, narrow(left), loose, pieces.as_slice())
}

fn random_piece(random: &mut Random, symbols: usize, symbols_in_hundred: usize) -> Piece {
    if random.chance(symbols_in_hundred) {
        return Piece::Symbol(narrow(random.below(symbols)));
    }
    let a = random.byte();
    let b = random.byte();
    match random.below(4) {
        0 => Piece::Range(a, a),
        1 => Piece::Except(a, b, random.byte()),
        2 => Piece::Except(a, a, a),
        _ => Piece::Range(a.min(b), a.max(b)),
    }
}

// The rules of the counting grammar that have bytes: as many as a rule can have, and one.
pub(crate) const MANY_BYTES: u16 = 16;

pub(crate) const ONE_BYTE: u16 = 17;

// One symbol, and tight rules only. For each k up to the most parts the rule number k has that symbol k times; two more rules have bytes, of any value. So
// there are trees for every number of rule nodes and, if these are many enough, for every number of bytes.
pub(crate) fn counting_grammar(heap: Global) -> Result<Plain, AllocError> {
    let mut grammar = Plain::empty(heap);
    for count in 0..=MOST_PARTS {
        let pieces = vec![in heap; Piece::Symbol(0); count]?;
        grammar.add(heap, 0, false, pieces.as_slice())?;
    }
    grammar.add(heap, 0, false, &[Piece::Range(0, 255); MOST_PARTS])?;
    grammar.add(heap, 0, false, &[Piece::Range(0, 255)])?;
    Ok(grammar)
}
