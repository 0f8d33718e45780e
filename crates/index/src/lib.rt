// An index beside the table, by which the entry of an ID is found without a walk over all of them.
#![tactic(auto)]

pub mod build;
pub mod find;
mod place;
