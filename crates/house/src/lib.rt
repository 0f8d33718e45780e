// The house form of a header.
#![tactic(auto)]

mod chains;
mod copying;
pub mod form;
mod keys;
mod links;
mod many;
mod progress;
mod run;
mod sizes;
