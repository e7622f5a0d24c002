// The worked cases of the documentation, as a table in specs/ and one theorem: the definitions by which the code is proved give every row.
#![tactic(auto)]

ghost use Rattle.worked_cases.specs.Cases.{WorkedCasesHold};

pub fn worked_cases_hold()
    ensures { WorkedCasesHold }
{}
