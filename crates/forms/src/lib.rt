// Lines of the house form, each written from one line of a header.
#![tactic(auto)]

mod field;
pub mod formed;
mod known;
pub mod line;
mod others;
mod quoting;
