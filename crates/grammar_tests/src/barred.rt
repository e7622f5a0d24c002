#[cfg(test)]
mod tests {
    use grammar::barred::{BarRefusal, Barred};
    use grammar::house::House;
    use grammar::spaced::Spaced;
    use grammar::{Grammar, Mark, Part};

    // The number of a refusal.
    fn number(answer: Result<(), BarRefusal>) -> Option<u8> {
        answer.err().map(|refusal| refusal.number())
    }

    #[test]
    fn a_barred_rule_is_a_gap(rt: HostRuntime) {
        let mut g = Barred::new(House);
        assert!(rt; g.left(2) == Some(1));
        assert!(rt; number(g.bar(2)) == None);
        assert!(rt;
            g.left(2) == None && g.mark(2) == None && g.parts(2) == None && g.part(2, 0) == None
        );
        assert!(rt;
            g.left(1) == Some(0) && g.part(3, 0) == Some(Part::Range { low: 48, high: 57 })
        );
        assert!(rt; g.rules() == 8 && g.symbols() == 4 && g.start() == 0);
    }

    #[test]
    fn numbers_from_1024_on_are_refused(rt: HostRuntime) {
        let mut g = Barred::new(House);
        assert!(rt; number(g.bar(1023)) == None);
        assert!(rt; number(g.bar(1024)) == Some(56));
        assert!(rt; number(g.bar(65535)) == Some(56));
        assert!(rt; g.left(0) == Some(0) && g.mark(7) == Some(Mark::Tight));
    }

    // Barring the blank's rules over Spaced leaves the blanks where they are.
    #[test]
    fn over_spaced(rt: HostRuntime) {
        let mut g = Barred::new(Spaced::new(House));
        assert!(rt; number(g.bar(9)) == None);
        assert!(rt; g.left(9) == None && g.left(8) == Some(4) && g.rules() == 10);
        assert!(rt; g.part(2, 1) == Some(Part::Symbol(4)));
    }

    // A rule barred below is a gap above, and the blank's rules keep their numbers.
    #[test]
    fn under_spaced(rt: HostRuntime) {
        let mut below = Barred::new(House);
        assert!(rt; number(below.bar(2)) == None);
        let g = Spaced::new(below);
        assert!(rt; g.left(2) == None && g.parts(2) == None && g.part(2, 1) == None);
        assert!(rt; g.part(1, 1) == Some(Part::Symbol(4)));
        assert!(rt; g.left(8) == Some(4) && g.parts(9) == Some(2) && g.rules() == 10);
    }
}
