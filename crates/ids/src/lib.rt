// IDs that stand twice, and keys that mix texts and maps.
#![tactic(auto)]

pub mod ahead;
mod names;
mod notes;
pub mod scan;
