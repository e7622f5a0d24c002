// The house grammar: a cue is settings such as 7@5, parted by semicolons, or a remark behind a number sign.
ghost use Rattle.grammar.specs.House.{house_meaning};
ghost use Rattle.grammar.specs.HouseBounds.{house_bounded};

use crate::{Grammar, Mark, Part};

const CUE: u16 = 0;

const SET: u16 = 1;

const NUM: u16 = 2;

const REST: u16 = 3;

const SYMBOLS: u16 = 4;

#[derive(Clone, Copy)]
pub struct House;

impl Grammar for House {
    ghost meaning = { λ _. house_meaning };

    ghost bounds = { λ _. house_bounded };

    fn start(&self) -> u16 {
        CUE
    }

    fn symbols(&self) -> u16 {
        SYMBOLS
    }

    fn rules(&self) -> u16 {
        8
    }

    fn left(&self, rule: u16) -> Option<u16> {
        match rule {
            0 | 1 | 5 => Some(CUE),
            2 => Some(SET),
            3 | 4 => Some(NUM),
            6 | 7 => Some(REST),
            _ => None,
        }
    }

    fn mark(&self, rule: u16) -> Option<Mark> {
        match rule {
            0..=2 => Some(Mark::Loose),
            3..=7 => Some(Mark::Tight),
            _ => None,
        }
    }

    fn parts(&self, rule: u16) -> Option<u8> {
        match rule {
            6 => Some(0),
            0 | 3 => Some(1),
            4 | 5 | 7 => Some(2),
            1 | 2 => Some(3),
            _ => None,
        }
    }

    fn part(&self, rule: u16, k: u8) -> Option<Part> {
        match (rule, k) {
            (0 | 1, 0) => Some(Part::Symbol(SET)),
            (1, 1) => Some(Part::only(b';')),
            (1, 2) => Some(Part::Symbol(CUE)),
            (2, 0 | 2) => Some(Part::Symbol(NUM)),
            (2, 1) => Some(Part::only(b'@')),
            (3 | 4, 0) => Some(Part::Range {
                low: b'0',
                high: b'9',
            }),
            (4, 1) => Some(Part::Symbol(NUM)),
            (5, 0) => Some(Part::only(b'#')),
            (5 | 7, 1) => Some(Part::Symbol(REST)),
            (7, 0) => Some(Part::Except(10, 13, 13)),
            _ => None,
        }
    }
}
