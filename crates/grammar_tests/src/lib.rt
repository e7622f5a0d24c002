// Tests of the grammar layers and of the packed table.
#![tactic(auto)]

mod barred;
mod chosen;
mod packed_table;
mod spaced;
mod text;
pub mod uniform;
