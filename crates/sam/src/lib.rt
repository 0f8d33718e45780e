// Contig lines from the header of an alignment file.
#![tactic(auto)]

pub mod contigs;
mod name;
pub mod refusal;
mod sequence;
mod tag;
mod written;
