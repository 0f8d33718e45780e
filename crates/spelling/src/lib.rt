// How the numbers of a header were spelled.
#![tactic(auto)]

pub mod odd;
