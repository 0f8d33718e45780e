// UTF-8, integers and values: the layer below the header reader.
#![tactic(auto)]

pub mod bits;
pub mod bytes;
pub mod cursor;
pub mod field;
pub mod hash;
pub mod integer;
pub mod marks;
pub mod output;
pub mod sink;
pub mod string;
pub mod utf8;
