// One record of a link table.
ghost use Rattle.std.specs.Prelude.{◌≡◌};
ghost use Rattle.guide.specs.LinkTable.{field as field_value, record_of};
ghost use Rattle.guide.specs.Steps.{Split};

use crate::Defect;

// A node by its value and its links.
#[derive(Clone, Copy)]
pub enum Record {
    Rule {
        value: u16,
        child: u16,
        sibling: u16,
    },
    Leaf {
        value: u8,
        sibling: u16,
    },
}

// A big-endian field of two bytes.
fn field(high: u8, low: u8) -> u16
    ensures { result ≡ field_value high low }
{
    u16::from_be_bytes([high, low])
}

// The record of these fields, if they are in form.
fn record_of(kind: u8, zero: u8, value: u16, child: u16, sibling: u16) -> Result<Record, Defect>
    ensures { result ≡ record_of kind zero value child sibling }
{
    match (kind, zero) {
        (1, 0) if value <= 9_999 => Ok(Record::Rule {
            value,
            child,
            sibling,
        }),
        (2, 0) if value <= 255 && child == 0 => Ok(Record::Leaf {
            value: value as u8,
            sibling,
        }),
        _ => Err(Defect::BadRecord),
    }
}

// The first record of a table and the rest of the table; or no record, and the table.
pub(crate) fn split_record(table: &[u8]) -> (Option<Result<Record, Defect>>, &[u8])
    ensures { Split table.now result.0 result.1.now }
{
    let [kind, zero, v1, v0, c1, c0, s1, s0, rest @ ..] = table else {
        return (None, table);
    };
    let record = record_of(
        *kind,
        *zero,
        field(*v1, *v0),
        field(*c1, *c0),
        field(*s1, *s0),
    );
    (Some(record), rest)
}
