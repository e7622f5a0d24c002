// A grammar of any size within the bounds, to test the layers at their limits.
ghost use Rattle.std.specs.Prelude.{◌≤◌};
ghost use Rattle.grammar_tests.specs.Uniform.{uniform_meaning, uniform_bounded};

use grammar::{Grammar, Mark, Part};

#[derive(Clone, Copy)]
pub struct Uniform {
    pub symbols: u16,
    pub rules: u16,
    pub parts: u8,
    ghost some: { 1 ≤ symbols },
    ghost few_symbols: { symbols ≤ 256 },
    ghost few_rules: { rules ≤ 1024 },
    ghost few_parts: { parts ≤ 255 },
}

impl Grammar for Uniform {
    ghost meaning = { λ x. uniform_meaning x.symbols x.rules x.parts };

    ghost bounds = { λ x. uniform_bounded x.symbols x.rules x.parts x.some x.few_symbols x.few_rules x.few_parts };

    fn start(&self) -> u16 {
        0
    }

    fn symbols(&self) -> u16 {
        self.symbols
    }

    fn rules(&self) -> u16 {
        self.rules
    }

    fn left(&self, rule: u16) -> Option<u16> {
        (rule < self.rules).then_some(0)
    }

    fn mark(&self, rule: u16) -> Option<Mark> {
        (rule < self.rules).then_some(Mark::Loose)
    }

    fn parts(&self, rule: u16) -> Option<u8> {
        (rule < self.rules).then_some(self.parts)
    }

    fn part(&self, rule: u16, k: u8) -> Option<Part> {
        (rule < self.rules && k < self.parts).then_some(Part::only(0))
    }
}
