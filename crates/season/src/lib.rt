// The sheet of a season: what was read, accepted and refused, and the entries of each kind.
#![tactic(auto)]

pub mod add;
pub mod merge;
pub mod place;
mod tally;
