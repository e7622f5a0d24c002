// The check of a packed table.
ghost use Rattle.std.specs.Prelude.{◌≡◌};
ghost use Rattle.std.specs.List.{list_all};
ghost use Rattle.packed.specs.Format.{symbol_count, rows, slots, padding};
ghost use Rattle.packed.specs.Check.{is_zero, lawful_part, row_fault, rows_fault, lawful_header, table_fault, outcome};

use crate::fault::TableFault;
use crate::layout::{Row, Table};

// Whether the table is lawful: if not, the first question with the answer no.
pub fn check(table: &[u8]) -> Result<(), TableFault>
    ensures { result ≡ outcome (table_fault table.now) }
{
    let Some(table) = Table::new(table) else {
        return Err(TableFault::Length);
    };
    if !header_is_lawful(table) {
        return Err(TableFault::Header);
    }
    check_rows(table)
}

fn header_is_lawful(table: Table) -> bool
    ensures { result ≡ lawful_header table.entry.bytes.now }
{
    let symbols = table.symbols();
    1 <= symbols && symbols <= 256 && table.start() < symbols && table.last() == 0
}

fn check_rows(table: Table) -> Result<(), TableFault>
    ensures { result ≡ outcome (rows_fault (symbol_count table.entry.bytes.now) 0 (rows table.entry.bytes.now)) }
{
    let symbols = table.symbols();
    for (rule, row) in table.rows().iter().enumerate() {
        check_row(symbols, rule as u16, row)?;
    }
    Ok(())
}

fn check_row(symbols: u16, rule: u16, row: &[u8; 64]) -> Result<(), TableFault>
    ensures { result ≡ outcome (row_fault symbols rule row.now) }
{
    let Some(row) = Row::new(symbols, row) else {
        return Err(TableFault::RuleHead(rule));
    };
    if !parts_are_lawful(symbols, row) {
        Err(TableFault::RulePart(rule))
    } else if !rest_is_zero(row) {
        Err(TableFault::RulePadding(rule))
    } else {
        Ok(())
    }
}

fn parts_are_lawful(symbols: u16, row: Row) -> bool
    ensures { result ≡ list_all (lawful_part symbols) (slots row.entry.bytes.now) }
{
    row.slots().iter().all(|slot| part_is_lawful(symbols, slot))
}

fn part_is_lawful(symbols: u16, slot: &[u8; 4]) -> bool
    ensures { result ≡ lawful_part symbols slot.now }
{
    match slot {
        [1, 0, high, low] => u16::from_be_bytes([*high, *low]) < symbols,
        [2, low, high, 0] => low <= high,
        [3, _, _, _] => true,
        _ => false,
    }
}

fn rest_is_zero(row: Row) -> bool
    ensures { result ≡ list_all is_zero (padding row.entry.bytes.now) }
{
    for byte in row.rest() {
        if *byte != 0 {
            return false;
        }
    }
    true
}
