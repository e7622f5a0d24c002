#[cfg(test)]
mod tests {
    use grammar::{Grammar, Mark, Part};
    use packed::Packed;

    // The number and the rule that opening the table is refused with.
    fn refusal(table: &[u8]) -> Option<(u8, u16)> {
        let (_, answer) = Packed::open(table);
        answer.err().map(|fault| (fault.number(), fault.rule()))
    }

    // Four symbols, start 0. Rule 0: symbol 0, loose, the parts symbol 3 and a digit. Rule 1: symbol 1, tight, any byte but 10 and 13.
    fn sample() -> [u8; 136] {
        let mut table = [0; 136];
        table[..4].copy_from_slice(&[0, 4, 0, 2]);
        table[8..20].copy_from_slice(&[0, 0, 1, 2, 1, 0, 0, 3, 2, b'0', b'9', 0]);
        table[72..80].copy_from_slice(&[0, 1, 0, 1, 3, 10, 13, 13]);
        table
    }

    // The sample with one byte changed: where, to what, and the refusal that this must give.
    const CHANGES: [(u8, u8, Option<(u8, u16)>); 30] = [
        (3, 3, Some((51, 0))),
        (3, 1, Some((51, 0))),
        (2, 1, Some((51, 0))),
        (1, 0, Some((52, 0))),
        (0, 1, Some((52, 0))),
        (5, 4, Some((52, 0))),
        (4, 1, Some((52, 0))),
        (6, 1, Some((52, 0))),
        (7, 1, Some((52, 0))),
        (5, 3, None),
        (9, 4, Some((53, 0))),
        (8, 1, Some((53, 0))),
        (10, 2, Some((53, 0))),
        (11, 16, Some((53, 0))),
        (73, 4, Some((53, 1))),
        (74, 2, Some((53, 1))),
        (75, 255, Some((53, 1))),
        (12, 0, Some((54, 0))),
        (12, 4, Some((54, 0))),
        (13, 1, Some((54, 0))),
        (15, 4, Some((54, 0))),
        (14, 1, Some((54, 0))),
        (17, 58, Some((54, 0))),
        (17, 57, None),
        (19, 1, Some((54, 0))),
        (75, 2, Some((54, 1))),
        (75, 0, Some((55, 1))),
        (20, 1, Some((55, 0))),
        (71, 1, Some((55, 0))),
        (135, 1, Some((55, 1))),
    ];

    #[test]
    fn each_refusal(rt: HostRuntime) {
        assert!(rt; refusal(&sample()) == None);
        for (place, value, wanted) in CHANGES {
            let mut table = sample();
            if let Some(byte) = table.get_mut(place as usize) {
                *byte = value;
            }
            assert!(rt; refusal(&table) == wanted);
        }
    }

    #[test]
    fn the_first_rule_concerned(rt: HostRuntime) {
        let mut table = sample();
        table[74] = 2;
        table[71] = 1;
        assert!(rt; refusal(&table) == Some((55, 0)));
    }

    // Shorter than a header; a byte behind it; one byte less than two rules.
    #[test]
    fn lengths(rt: HostRuntime) {
        assert!(rt; refusal(&[]) == Some((51, 0)));
        assert!(rt; refusal(&[0, 1, 0, 0, 0, 0, 0]) == Some((51, 0)));
        assert!(rt; refusal(&[0, 1, 0, 0, 0, 0, 0, 0, 0]) == Some((51, 0)));
        let mut table = [0; 135];
        table[1] = 4;
        table[3] = 2;
        assert!(rt; refusal(&table) == Some((51, 0)));
    }

    #[test]
    fn no_rules_and_most_symbols(rt: HostRuntime) {
        let (g, answer) = Packed::open(&[1, 0, 0, 0, 0, 255, 0, 0]);
        assert!(rt; answer.is_ok());
        assert!(rt; g.symbols() == 256 && g.rules() == 0 && g.start() == 255 && g.left(0) == None);
        assert!(rt; refusal(&[1, 1, 0, 0, 0, 255, 0, 0]) == Some((52, 0)));
    }

    #[test]
    fn a_thousand_rules(rt: HostRuntime) {
        let mut table = [0; 64008];
        table[1] = 1;
        table[2] = 3;
        table[3] = 232;
        let (g, answer) = Packed::open(&table);
        assert!(rt; answer.is_ok());
        assert!(rt; g.rules() == 1000 && g.left(999) == Some(0) && g.left(1000) == None);
        assert!(rt; g.parts(999) == Some(0) && g.part(999, 0) == None);
    }

    #[test]
    fn a_rule_too_many(rt: HostRuntime) {
        let mut table = [0; 64072];
        table[1] = 1;
        table[2] = 3;
        table[3] = 233;
        assert!(rt; refusal(&table) == Some((51, 0)));
    }

    #[test]
    fn the_answers_of_the_sample(rt: HostRuntime) {
        let table = sample();
        let (g, answer) = Packed::open(&table);
        assert!(rt; answer.is_ok());
        assert!(rt; g.symbols() == 4 && g.rules() == 2 && g.start() == 0);
        assert!(rt; g.left(0) == Some(0) && g.left(1) == Some(1) && g.left(2) == None);
        assert!(rt;
            g.mark(0) == Some(Mark::Loose) && g.mark(1) == Some(Mark::Tight) && g.mark(2) == None
        );
        assert!(rt; g.parts(0) == Some(2) && g.parts(1) == Some(1));
        assert!(rt; g.part(0, 0) == Some(Part::Symbol(3)));
        assert!(rt; g.part(0, 1) == Some(Part::Range { low: 48, high: 57 }));
        assert!(rt; g.part(0, 2) == None && g.part(2, 0) == None);
        assert!(rt; g.part(1, 0) == Some(Part::Except(10, 13, 13)));
    }

    #[test]
    fn a_refused_table_opens_as_the_empty_grammar(rt: HostRuntime) {
        let mut table = sample();
        table[135] = 1;
        let (g, answer) = Packed::open(&table);
        assert!(rt; answer.is_err());
        assert!(rt; g.symbols() == 1 && g.rules() == 0 && g.start() == 0);
        assert!(rt;
            g.left(0) == None && g.mark(0) == None && g.parts(0) == None && g.part(0, 0) == None
        );
    }
}
