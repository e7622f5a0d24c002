// Laws of the two layers. A function here does nothing: its contract names a law, so that the check asks for the law's proof.
ghost use Rattle.grammar.specs.SpacedLaws.{BlanksOnlyBetweenParts, WithoutBlanksAsBelow, OthersAsBelow, BlankRulesComeLast};
ghost use Rattle.grammar.specs.BarredLaws.{BarringMakesOneGap, NothingBarredAsBelow, BarsAndBlanksCommute};

pub fn blanks_only_between_parts()
    ensures { BlanksOnlyBetweenParts }
{}

pub fn without_blanks_as_below()
    ensures { WithoutBlanksAsBelow }
{}

pub fn others_as_below()
    ensures { OthersAsBelow }
{}

pub fn blank_rules_come_last()
    ensures { BlankRulesComeLast }
{}

pub fn barring_makes_one_gap()
    ensures { BarringMakesOneGap }
{}

pub fn nothing_barred_as_below()
    ensures { NothingBarredAsBelow }
{}

pub fn bars_and_blanks_commute()
    ensures { BarsAndBlanksCommute }
{}
