// Entries turned from one form into the other.
#![tactic(auto)]

pub mod turn;
