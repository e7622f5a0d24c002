#[cfg(test)]
mod tests {
    use grammar::Grammar;
    use grammar::blanks::Blanks;
    use grammar::house::House;
    use packed::{Packed, base};

    #[test]
    fn with_blanks_or_without(rt: HostRuntime) {
        let with = Blanks::new(House, true);
        assert!(rt; with.rules() == 10 && with.symbols() == 5 && with.left(9) == Some(4));
        let without = Blanks::new(House, false);
        assert!(rt; without.rules() == 8 && without.symbols() == 4 && without.left(9) == None);
    }

    #[test]
    fn no_bytes_stand_for_the_house_grammar(rt: HostRuntime) {
        let opened = base::open(&[]);
        assert!(rt; opened.is_ok());
        if let Ok(grammar) = opened {
            assert!(rt; grammar.rules() == 8 && grammar.symbols() == 4 && grammar.start() == 0);
        }
    }

    #[test]
    fn other_bytes_are_a_table(rt: HostRuntime) {
        let table = [0, 7, 0, 0, 0, 3, 0, 0];
        let opened = base::open(&table);
        assert!(rt; opened.is_ok());
        if let Ok(grammar) = opened {
            assert!(rt; grammar.rules() == 0 && grammar.symbols() == 7 && grammar.start() == 3);
        }
        assert!(rt; base::open(&[0]).is_err());
    }

    #[test]
    fn a_table_is_tried(rt: HostRuntime) {
        let opened = Packed::try_from(&[0, 7, 0, 0, 0, 3, 0, 0][..]);
        assert!(rt; opened.is_ok());
        let refused = Packed::try_from(&[0, 7, 0, 0, 0, 7, 0, 0][..]);
        assert!(rt; refused.is_err());
    }
}
