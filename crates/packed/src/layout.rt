// Where things stand in a packed table.
ghost use Rattle.std.specs.Prelude.{◌≡◌, ◌+◌, ◌*◌, ◌<◌, ◌≤◌, true, false, drop, length, MatchOption};
ghost use Rattle.packed.specs.Format.{pair_at, symbol_count, rule_count, start_symbol, last_field, rows, left_symbol, mark_byte, mark_in, part_count, slots, padding};
ghost use Rattle.packed.specs.Check.{lawful_length, lawful_head};

use grammar::Mark;

// A table of few enough rules, whose rows fill it.
#[derive(Clone, Copy)]
pub(crate) struct Table<'a> {
    pub(crate) bytes: &'a [u8],
    ghost whole: { length bytes.now ≡ 8 + 64 * rule_count bytes.now },
    ghost few_rules: { rule_count bytes.now ≤ 1000 },
}

// The row of a rule, with room for its parts.
#[derive(Clone, Copy)]
pub(crate) struct Row<'a> {
    pub(crate) bytes: &'a [u8; 64],
    ghost room: { part_count bytes.now ≤ 15 },
}

// Two bytes, the higher first.
fn pair(bytes: &[u8], i: usize) -> u16
    requires { i + 1 < length bytes.now }
    ensures { result ≡ pair_at bytes.now i }
{
    u16::from_be_bytes([bytes[i], bytes[i + 1]])
}

impl<'a> Table<'a> {
    // The table, if its length is lawful.
    pub(crate) fn new(bytes: &'a [u8]) -> Option<Table<'a>>
        ensures { MatchOption result (lawful_length bytes.now ≡ false) (λ table. (lawful_length bytes.now ≡ true) × (table.bytes.now ≡ bytes.now)) }
    {
        if bytes.len() < 8 {
            return None;
        }
        let rules = pair(bytes, 2) as usize;
        if bytes.len() == 8 + 64 * rules && rules <= 1000 {
            Some(Table { bytes })
        } else {
            None
        }
    }

    pub(crate) fn symbols(self) -> u16
        ensures { result ≡ symbol_count self.entry.bytes.now }
    {
        pair(self.bytes, 0)
    }

    pub(crate) fn rules(self) -> u16
        ensures { result ≡ rule_count self.entry.bytes.now }
    {
        pair(self.bytes, 2)
    }

    pub(crate) fn start(self) -> u16
        ensures { result ≡ start_symbol self.entry.bytes.now }
    {
        pair(self.bytes, 4)
    }

    pub(crate) fn last(self) -> u16
        ensures { result ≡ last_field self.entry.bytes.now }
    {
        pair(self.bytes, 6)
    }

    // The 64 bytes of each rule.
    pub(crate) fn rows(self) -> &'a [[u8; 64]]
        ensures { result.now ≡ rows self.entry.bytes.now }
    {
        let bytes = self.bytes;
        let (rows, _) = bytes[8..].as_chunks::<64>();
        rows
    }
}

impl<'a> Row<'a> {
    // The row, if its head is lawful under this count of symbols.
    pub(crate) fn new(symbols: u16, bytes: &'a [u8; 64]) -> Option<Row<'a>>
        ensures { MatchOption result (lawful_head symbols bytes.now ≡ false) (λ row. (lawful_head symbols bytes.now ≡ true) × (row.bytes.now ≡ bytes.now)) }
    {
        let [high, low, mark, count, ..] = bytes;
        if u16::from_be_bytes([*high, *low]) < symbols && *mark <= 1 && *count <= 15 {
            Some(Row { bytes })
        } else {
            None
        }
    }

    pub(crate) fn left(self) -> u16
        ensures { result ≡ left_symbol self.entry.bytes.now }
    {
        let [high, low, ..] = self.bytes;
        u16::from_be_bytes([*high, *low])
    }

    pub(crate) fn mark(self) -> Mark
        ensures { result ≡ mark_in (mark_byte self.entry.bytes.now) }
    {
        if self.bytes[2] == 1 {
            Mark::Loose
        } else {
            Mark::Tight
        }
    }

    pub(crate) fn parts(self) -> u8
        ensures { result ≡ part_count self.entry.bytes.now }
    {
        self.bytes[3]
    }

    fn behind_head(self) -> &'a [u8]
        ensures bytes { result.now ≡ drop 4 self.entry.bytes.now }
        ensures len { length result.now ≡ 60 }
    {
        let bytes = self.bytes;
        &bytes[4..]
    }

    // The four bytes of each part.
    pub(crate) fn slots(self) -> &'a [[u8; 4]]
        ensures { result.now ≡ slots self.entry.bytes.now }
    {
        let (slots, _) = self.behind_head().as_chunks::<4>();
        &slots[..self.parts() as usize]
    }

    // The bytes behind the parts.
    pub(crate) fn rest(self) -> &'a [u8]
        ensures { result.now ≡ padding self.entry.bytes.now }
    {
        &self.behind_head()[4 * self.parts() as usize..]
    }
}
