// Headers that come in pieces.
#![tactic(auto)]

pub mod cable;
