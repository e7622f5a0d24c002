// Grammars: the parts of a rule, the questions that a grammar is asked, the house grammar, two layers over any grammar, and one grammar of two.
#![tactic(auto)]

ghost use Rattle.std.specs.Prelude.{◌≡◌};
ghost use Rattle.grammar.specs.Meaning.{Meaning, Bounded, allows, left_of, mark_of, count_of, part_of};

pub mod barred;
mod blank;
pub mod blanks;
pub mod either;
pub mod house;
pub mod laws;
pub mod spaced;
mod text;

// Whether blanks may stand between a rule's parts, where a layer allows them (loose), or may not (tight).
#[derive(Clone, Copy, PartialEq, Eq)]
pub enum Mark {
    Loose,
    Tight,
}

// A part of a rule: a symbol, a byte from low to high with both included, or any byte except three.
#[derive(Clone, Copy, PartialEq, Eq)]
pub enum Part {
    Symbol(u16),
    Range { low: u8, high: u8 },
    Except(u8, u8, u8),
}

impl Part {
    // The part that only this byte matches.
    pub fn only(byte: u8) -> Part
        ensures { result ≡ Part.Range byte byte }
    {
        Part::Range {
            low: byte,
            high: byte,
        }
    }

    // Whether a leaf with this byte matches the part. A symbol allows none: it is matched by a rule node.
    pub fn allows(self, byte: u8) -> bool
        ensures { result ≡ allows self byte }
    {
        match self {
            Part::Symbol(_) => false,
            Part::Range { low, high } => low <= byte && byte <= high,
            Part::Except(x, y, z) => byte != x && byte != y && byte != z,
        }
    }
}

// A grammar by its meaning. Whoever builds one shows that each answer is the meaning's, and that the meaning keeps the bounds.
// No question changes a grammar. Where there is no such rule or no such part, the answer is None.
pub trait Grammar {
    ghost meaning: { Self → Meaning };

    ghost bounds: { (x : Self) → Bounded (meaning x) };

    // The symbol that a root has on its left.
    fn start(&self) -> u16
        ensures { result ≡ (meaning self.now).start };

    // How many symbols there are: they are numbered from 0.
    fn symbols(&self) -> u16
        ensures { result ≡ (meaning self.now).symbols };

    // How many rule numbers there are, gaps too.
    fn rules(&self) -> u16
        ensures { result ≡ (meaning self.now).rules };

    // The symbol on the rule's left.
    fn left(&self, rule: u16) -> Option<u16>
        ensures { result ≡ left_of ((meaning self.now).rule rule) };

    fn mark(&self, rule: u16) -> Option<Mark>
        ensures { result ≡ mark_of ((meaning self.now).rule rule) };

    // How many parts the rule has.
    fn parts(&self, rule: u16) -> Option<u8>
        ensures { result ≡ count_of ((meaning self.now).rule rule) };

    // The rule's k-th part, counted from 0.
    fn part(&self, rule: u16, k: u8) -> Option<Part>
        ensures { result ≡ part_of ((meaning self.now).rule rule) k };
}
