// The records of a header: one line at a time.
#![tactic(auto)]

pub mod definition;
mod distinct;
pub mod field;
pub mod file_format;
pub mod key;
mod list;
mod map;
pub mod number;
mod quick;
pub mod record;
pub mod refusal;
pub mod tag;
mod typed;
mod value;
