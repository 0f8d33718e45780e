// The cell register of a probe header, and the comparison of two registers.
#![tactic(auto)]

mod cells;
pub mod compare;
pub mod probe;
mod well;
