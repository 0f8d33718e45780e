// The reading of a whole header, line by line, and the calls on its entries.
#![tactic(auto)]

mod ahead;
pub mod parser;
pub mod phase;
pub mod shown;
mod verdict;
