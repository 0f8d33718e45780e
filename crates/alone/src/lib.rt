// An entry's line, read again by itself.
#![tactic(auto)]

pub mod read;
