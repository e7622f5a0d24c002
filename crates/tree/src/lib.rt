// The theory of parse trees and of the check of a guide: definitions in specs/, and a function for each theorem, whose contract is it.
#![tactic(auto)]

ghost use Rattle.tree.specs.Theorems.{WalkDeterminesTree, TwoEventsARuleOneAByte, AcceptedExactlyWhenATreeIsTold, OneTreeIsTold, EveryParseTreeIsAccepted, RefusalsSayWhere};

pub mod verdict;

// No two trees have the same walk.
#[tactic(auto, using(crate::proofs::Walks::walk_determines_tree))]
pub fn walk_determines_tree()
    ensures { WalkDeterminesTree }
{}

// A walk has two events for each rule node, and one for each byte.
#[tactic(auto, using(crate::proofs::Walks::two_events_a_rule_one_a_byte))]
pub fn two_events_a_rule_one_a_byte()
    ensures { TwoEventsARuleOneAByte }
{}

// The check accepts exactly where the guide tells the walk of a parse tree within the limits, spelling the text, and then ends.
pub fn accepted_exactly_when_a_tree_is_told()
    ensures { AcceptedExactlyWhenATreeIsTold }
{}

// A guide tells one tree at most, so the check never chooses between two trees of one text.
pub fn one_tree_is_told()
    ensures { OneTreeIsTold }
{}

// Every parse tree within the limits is accepted when its own walk is told.
#[tactic(auto, using(crate::proofs::Complete::every_parse_tree_is_accepted))]
pub fn every_parse_tree_is_accepted()
    ensures { EveryParseTreeIsAccepted }
{}

// A refusal counts the events accepted and the text bytes that they told, and is decided by these and the next answer alone.
#[tactic(auto, using(crate::proofs::Refusals::refusals_say_where))]
pub fn refusals_say_where()
    ensures { RefusalsSayWhere }
{}
