#![tactic(auto)]

pub mod header_line;
