// A grammar in a packed table: the bytes that users bring.
#![tactic(auto)]

ghost use Rattle.std.specs.Prelude.{◌≡◌, true, IfOk, MatchOption};
ghost use Rattle.packed.specs.Format.{part_in, rule_in, packed_meaning};
ghost use Rattle.packed.specs.Check.{table_fault, outcome, answered, is_lawful, opened_meaning};
ghost use Rattle.packed.specs.Bounds.{packed_bounded};

use grammar::{Grammar, Mark, Part};

pub mod base;
pub mod check;
pub mod fault;
pub mod laws;
mod layout;

use check::check;
use fault::TableFault;
use layout::{Row, Table};

// One symbol, no rules, start 0.
const EMPTY: [u8; 8] = [0, 1, 0, 0, 0, 0, 0, 0];

// The grammar of a table. It exists only over a lawful one, so that no question tests the bytes again.
#[derive(Clone, Copy)]
pub struct Packed<'a> {
    table: &'a [u8],
    ghost lawful: { is_lawful table.now ≡ true },
}

impl<'a> Packed<'a> {
    // The grammar of the table, and whether the table is lawful. A refused table opens as the empty grammar.
    pub fn open(table: &'a [u8]) -> (Packed<'a>, Result<(), TableFault>)
        ensures grammar { packed_meaning result.0.table.now ≡ opened_meaning table.now }
        ensures answer { result.1 ≡ outcome (table_fault table.now) }
    {
        match Packed::try_from(table) {
            Ok(packed) => (packed, Ok(())),
            Err(fault) => (Packed { table: &EMPTY }, Err(fault)),
        }
    }

    fn layout(&self) -> Table<'a>
        ensures { result.bytes.now ≡ self.now.table.now }
    {
        Table { bytes: self.table }
    }

    // The row of a rule, unless there is no such rule.
    fn row(&self, rule: u16) -> Option<Row<'a>>
        ensures { MatchOption result ((packed_meaning self.now.table.now).rule rule ≡ None) (λ row. (packed_meaning self.now.table.now).rule rule ≡ Some (rule_in row.bytes.now)) }
    {
        let bytes = self.layout().rows().get(rule as usize)?;
        Some(Row { bytes })
    }
}

impl<'a> TryFrom<&'a [u8]> for Packed<'a> {
    type Error = TableFault;

    ghost try_from_gives = { λ table opened. record { grammar : IfOk opened (λ packed. packed.table.now ≡ table.now); answer : answered opened ≡ outcome (table_fault table.now) } };

    fn try_from(table: &'a [u8]) -> Result<Packed<'a>, TableFault> {
        check(table)?;
        Ok(Packed { table })
    }
}

impl<'a> Grammar for Packed<'a> {
    ghost meaning = { λ x. packed_meaning x.table.now };

    ghost bounds = { λ x. packed_bounded x.table.now x.lawful };

    fn start(&self) -> u16 {
        self.layout().start()
    }

    fn symbols(&self) -> u16 {
        self.layout().symbols()
    }

    fn rules(&self) -> u16 {
        self.layout().rules()
    }

    fn left(&self, rule: u16) -> Option<u16> {
        Some(self.row(rule)?.left())
    }

    fn mark(&self, rule: u16) -> Option<Mark> {
        Some(self.row(rule)?.mark())
    }

    fn parts(&self, rule: u16) -> Option<u8> {
        Some(self.row(rule)?.parts())
    }

    fn part(&self, rule: u16, k: u8) -> Option<Part> {
        let slot = self.row(rule)?.slots().get(k as usize)?;
        Some(part_in(slot))
    }
}

// The part that four bytes stand for.
fn part_in(slot: &[u8; 4]) -> Part
    ensures { result ≡ part_in slot.now }
{
    match slot {
        [1, _, high, low] => Part::Symbol(u16::from_be_bytes([*high, *low])),
        [2, low, high, _] => Part::Range {
            low: *low,
            high: *high,
        },
        [_, x, y, z] => Part::Except(*x, *y, *z),
    }
}
