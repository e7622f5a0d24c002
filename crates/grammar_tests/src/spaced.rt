#[cfg(test)]
mod tests {
    use crate::uniform::Uniform;
    use grammar::house::House;
    use grammar::spaced::Spaced;
    use grammar::{Grammar, Mark, Part};

    // 1,022 rules and 255 symbols leave room: the blank symbol is 255, its rules are the last two.
    #[test]
    fn largest_with_room(rt: HostRuntime) {
        let g = Spaced::new(Uniform {
            symbols: 255,
            rules: 1022,
            parts: 2,
        });
        assert!(rt; g.symbols() == 256 && g.rules() == 1024 && g.start() == 0);
        assert!(rt; g.left(1022) == Some(255) && g.left(1023) == Some(255) && g.left(1024) == None);
        assert!(rt; g.mark(1022) == Some(Mark::Tight) && g.mark(1023) == Some(Mark::Tight));
        assert!(rt; g.parts(1022) == Some(0) && g.part(1022, 0) == None);
        assert!(rt; g.parts(1023) == Some(2) && g.part(1023, 2) == None);
        assert!(rt; g.part(1023, 0) == Some(Part::only(32)));
        assert!(rt; g.part(1023, 1) == Some(Part::Symbol(255)));
        assert!(rt; g.part(1021, 1) == Some(Part::Symbol(255)));
    }

    #[test]
    fn a_rule_too_many(rt: HostRuntime) {
        let g = Spaced::new(Uniform {
            symbols: 255,
            rules: 1023,
            parts: 2,
        });
        assert!(rt; g.symbols() == 255 && g.rules() == 1023);
        assert!(rt; g.mark(0) == Some(Mark::Loose) && g.parts(0) == Some(2));
        assert!(rt; g.part(0, 1) == Some(Part::only(0)) && g.left(1023) == None);
    }

    #[test]
    fn a_symbol_too_many(rt: HostRuntime) {
        let g = Spaced::new(Uniform {
            symbols: 256,
            rules: 1022,
            parts: 2,
        });
        assert!(rt; g.symbols() == 256 && g.rules() == 1022);
        assert!(rt; g.mark(0) == Some(Mark::Loose) && g.parts(0) == Some(2));
        assert!(rt; g.left(1022) == None && g.parts(1022) == None);
    }

    #[test]
    fn one_part_gets_no_blank(rt: HostRuntime) {
        let g = Spaced::new(Uniform {
            symbols: 1,
            rules: 1,
            parts: 1,
        });
        assert!(rt; g.mark(0) == Some(Mark::Loose) && g.parts(0) == Some(1));
        assert!(rt; g.part(0, 0) == Some(Part::only(0)) && g.part(0, 1) == None);
    }

    #[test]
    fn two_parts_get_one_blank(rt: HostRuntime) {
        let g = Spaced::new(Uniform {
            symbols: 1,
            rules: 1,
            parts: 2,
        });
        assert!(rt; g.mark(0) == Some(Mark::Tight) && g.parts(0) == Some(3));
        assert!(rt; g.part(0, 0) == Some(Part::only(0)) && g.part(0, 1) == Some(Part::Symbol(1)));
        assert!(rt; g.part(0, 2) == Some(Part::only(0)) && g.part(0, 3) == None);
    }

    #[test]
    fn most_parts_that_get_blanks(rt: HostRuntime) {
        let g = Spaced::new(Uniform {
            symbols: 1,
            rules: 1,
            parts: 128,
        });
        assert!(rt; g.mark(0) == Some(Mark::Tight) && g.parts(0) == Some(255));
        assert!(rt; g.part(0, 253) == Some(Part::Symbol(1)));
        assert!(rt; g.part(0, 254) == Some(Part::only(0)) && g.part(0, 255) == None);
    }

    #[test]
    fn too_many_parts_for_blanks(rt: HostRuntime) {
        let g = Spaced::new(Uniform {
            symbols: 1,
            rules: 1,
            parts: 129,
        });
        assert!(rt; g.mark(0) == Some(Mark::Loose) && g.parts(0) == Some(129));
        assert!(rt; g.part(0, 1) == Some(Part::only(0)) && g.part(0, 128) == Some(Part::only(0)));
    }

    // The blank symbol of the house grammar is 4. It stands neither before a first part nor behind a last one.
    #[test]
    fn house_rules(rt: HostRuntime) {
        let g = Spaced::new(House);
        assert!(rt; g.part(2, 0) == Some(Part::Symbol(2)));
        assert!(rt; g.part(2, 1) == Some(Part::Symbol(4)));
        assert!(rt; g.part(2, 2) == Some(Part::only(b'@')));
        assert!(rt; g.part(2, 3) == Some(Part::Symbol(4)));
        assert!(rt; g.part(2, 4) == Some(Part::Symbol(2)) && g.part(2, 5) == None);
        assert!(rt; g.mark(4) == Some(Mark::Tight) && g.parts(4) == Some(2));
        assert!(rt; g.mark(0) == Some(Mark::Loose) && g.parts(0) == Some(1));
    }

    // The rules that the first layer spread are tight, so the second adds only its own symbol and rules.
    #[test]
    fn twice(rt: HostRuntime) {
        let g = Spaced::new(Spaced::new(House));
        assert!(rt; g.symbols() == 6 && g.rules() == 12);
        assert!(rt; g.parts(2) == Some(5) && g.part(2, 1) == Some(Part::Symbol(4)));
        assert!(rt; g.left(8) == Some(4) && g.left(9) == Some(4));
        assert!(rt; g.left(10) == Some(5) && g.left(11) == Some(5) && g.left(12) == None);
        assert!(rt;
            g.part(11, 0) == Some(Part::only(32)) && g.part(11, 1) == Some(Part::Symbol(5))
        );
    }
}
