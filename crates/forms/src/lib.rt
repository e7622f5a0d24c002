// The written forms of a tree: how its listing and its link table are written, and that each tree has exactly one of either.
#![tactic(auto)]

ghost use Rattle.forms.specs.Laws.{OneListingForEachTree, OneLinkTableForEachTree, ListingAsWritten, LinkTableAsWritten, FaultPlaceCountsRecords};

pub fn one_listing_for_each_tree()
    ensures { OneListingForEachTree }
{}

pub fn one_link_table_for_each_tree()
    ensures { OneLinkTableForEachTree }
{}

// The one listing is the one that the definition writes.
#[tactic(auto, using(crate::proofs::Listings::listing_as_written))]
pub fn listing_as_written()
    ensures { ListingAsWritten }
{}

// The one link table is the one that the definition writes.
#[tactic(auto, using(crate::proofs::LinkTables::link_table_as_written))]
pub fn link_table_as_written()
    ensures { LinkTableAsWritten }
{}

// The place of a link table's fault is eight times the records told before it.
#[tactic(auto, using(crate::proofs::Places::fault_place_counts_records))]
pub fn fault_place_counts_records()
    ensures { FaultPlaceCountsRecords }
{}
