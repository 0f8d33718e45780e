// How a header falls into lines.
#![tactic(auto)]

pub mod line;
