// What a caller asks of a header by name: an entry by its key and ID, a value by its field's key, and what a text means; and where the
// header of a whole VCF ends.
#![tactic(auto)]

pub mod end;
pub mod entry;
pub mod field;
pub mod find;
pub mod meaning;
