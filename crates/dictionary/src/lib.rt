// The dictionaries of BCF: a number for each string and each contig.
#![tactic(auto)]

mod line;
mod marking;
mod numbering;
mod place;
mod slots;
pub mod string_maps;
