// Grammars as plain lists of rules, and the layers over them.
use std::alloc::{AllocError, Global};

#[derive(Clone, Copy, PartialEq, Eq)]
pub enum Piece {
    Symbol(u16),
    Range(u8, u8),
    Except(u8, u8, u8),
}

#[derive(Drop)]
pub struct Rule {
    pub left: u16,
    pub loose: bool,
    pub pieces: Vec<Piece>,
}

// A rule number without a rule is a gap.
#[derive(Drop)]
pub struct Plain {
    pub start: u16,
    pub symbols: u16,
    pub rules: Vec<Option<Rule>>,
}

// Why a rule cannot be barred.
#[derive(Clone, Copy, PartialEq, Eq)]
pub enum BarFlaw {
    NumberOutside,
}

impl BarFlaw {
    pub fn number(self) -> u8 {
        match self {
            BarFlaw::NumberOutside => 56,
        }
    }
}

impl Piece {
    // Whether the byte may stand here; no byte may stand for a symbol.
    pub fn admits(self, byte: u8) -> bool {
        match self {
            Piece::Symbol(_) => false,
            Piece::Range(low, high) => (low..=high).contains(&byte),
            Piece::Except(x, y, z) => ![x, y, z].contains(&byte),
        }
    }
}

impl Plain {
    // What a refused table stands for: one symbol and no rule.
    pub fn empty(heap: Global) -> Plain {
        Plain {
            start: 0,
            symbols: 1,
            rules: Vec::new(heap),
        }
    }

    // The rule with that number, unless it is a gap or past the last.
    pub fn rule(&self, number: u16) -> Option<&Rule> {
        self.rules.get(usize::from(number))?.as_ref()
    }

    pub fn add(
        &mut self,
        heap: Global,
        left: u16,
        loose: bool,
        pieces: &[Piece],
    ) -> Result<(), AllocError> {
        let pieces = pieces.to_vec(heap)?;
        self.rules.push(Some(Rule {
            left,
            loose,
            pieces,
        }))?;
        Ok(())
    }

    // The rule with that number, if there is one, becomes a gap.
    pub fn bar(&mut self, number: u16) -> Result<(), BarFlaw> {
        if number >= 1_024 {
            return Err(BarFlaw::NumberOutside);
        }
        if let Some(rule) = self.rules.get_mut(usize::from(number)) {
            *rule = None;
        }
        Ok(())
    }
}

// The house grammar, from its table in docs/grammars.md.
pub fn house(heap: Global) -> Result<Plain, AllocError> {
    let cue = Piece::Symbol(0);
    let set = Piece::Symbol(1);
    let num = Piece::Symbol(2);
    let rest = Piece::Symbol(3);
    let digit = Piece::Range(b'0', b'9');
    let mut house = Plain {
        start: 0,
        symbols: 4,
        rules: Vec::new(heap),
    };
    house.add(heap, 0, true, &[set])?;
    house.add(heap, 0, true, &[set, Piece::Range(b';', b';'), cue])?;
    house.add(heap, 1, true, &[num, Piece::Range(b'@', b'@'), num])?;
    house.add(heap, 2, false, &[digit])?;
    house.add(heap, 2, false, &[digit, num])?;
    house.add(heap, 0, false, &[Piece::Range(b'#', b'#'), rest])?;
    house.add(heap, 3, false, &[])?;
    house.add(heap, 3, false, &[Piece::Except(10, 13, 13), rest])?;
    Ok(house)
}

// Blanks between the parts of loose rules, and the two rules of the blank symbol behind all others.
pub fn spaced(heap: Global, below: Plain) -> Result<Plain, AllocError> {
    if below.rules.len() > 1_022 || below.symbols > 255 {
        return Ok(below);
    }
    let blank = below.symbols;
    let mut above = Plain {
        start: below.start,
        symbols: blank + 1,
        rules: Vec::new(heap),
    };
    for rule in below.rules {
        let rule = match rule {
            Some(rule) => Some(spread(heap, rule, blank)?),
            None => None,
        };
        above.rules.push(rule)?;
    }
    above.add(heap, blank, false, &[])?;
    let space = Piece::Range(b' ', b' ');
    above.add(heap, blank, false, &[space, Piece::Symbol(blank)])?;
    Ok(above)
}

fn spread(heap: Global, rule: Rule, blank: u16) -> Result<Rule, AllocError> {
    if !rule.loose || rule.pieces.len() < 2 || rule.pieces.len() > 128 {
        return Ok(rule);
    }
    let blanks_before = |piece: &Piece| [Piece::Symbol(blank), *piece];
    let pieces = rule.pieces.iter().flat_map(blanks_before).skip(1);
    Ok(Rule {
        left: rule.left,
        loose: false,
        pieces: pieces.collect(heap)?,
    })
}
