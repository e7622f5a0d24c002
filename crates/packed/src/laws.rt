// Laws of the packed table. A function here does nothing: its contract names a law, so that the check asks for the law's proof.
ghost use Rattle.packed.specs.Laws.{LawfulTablesAreTheEncodings, EncodingsMeanTheirGrammar, OneTableForAGrammar};
ghost use Rattle.packed.specs.HouseTable.{HouseTableIsLawfulAndMeansHouse};

pub fn lawful_tables_are_the_encodings()
    ensures { LawfulTablesAreTheEncodings }
{}

pub fn encodings_mean_their_grammar()
    ensures { EncodingsMeanTheirGrammar }
{}

pub fn one_table_for_a_grammar()
    ensures { OneTableForAGrammar }
{}

pub fn house_table_is_lawful_and_means_house()
    ensures { HouseTableIsLawfulAndMeansHouse }
{}
