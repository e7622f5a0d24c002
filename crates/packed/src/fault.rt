// Why a packed table is refused.
ghost use Rattle.std.specs.Prelude.{◌≡◌, Some};
ghost use Rattle.packed.specs.Check.{fault_number, fault_rule};
ghost use Rattle.packed.specs.Text.{fault_text};

use std::fmt;

// The first question with the answer no: about the length, the header, or the first rule concerned.
#[derive(Clone, Copy, PartialEq, Eq)]
pub enum TableFault {
    Length,
    Header,
    RuleHead(u16),
    RulePart(u16),
    RulePadding(u16),
}

impl TableFault {
    // The number that the fault is reported with.
    pub fn number(self) -> u8
        ensures { result ≡ fault_number self }
    {
        match self {
            TableFault::Length => 51,
            TableFault::Header => 52,
            TableFault::RuleHead(_) => 53,
            TableFault::RulePart(_) => 54,
            TableFault::RulePadding(_) => 55,
        }
    }

    // The rule concerned, 0 where it is none.
    pub fn rule(self) -> u16
        ensures { result ≡ fault_rule self }
    {
        match self {
            TableFault::Length | TableFault::Header => 0,
            TableFault::RuleHead(rule)
            | TableFault::RulePart(rule)
            | TableFault::RulePadding(rule) => rule,
        }
    }
}

impl fmt::Display for TableFault {
    ghost output = { λ fault. Some (fault_text fault) };

    fn fmt<W: fmt::Write>(&self, f: &mut fmt::Formatter<W>) -> fmt::Result {
        write!(f, "refused {} rule={}", self.number(), self.rule())
    }
}
