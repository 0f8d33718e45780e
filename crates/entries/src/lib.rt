// Entries of a table: what they say, how they are stored, and what they show of the header.
#![tactic(auto)]

pub mod entry;
pub mod form;
pub mod formed;
pub mod kind;
pub mod limits;
pub mod notes;
pub mod part;
pub mod shown;
pub mod table;
mod word;
