// Clifford tails: the last letters of a gate word, without T, written into an array. SPEC, "Gate words".
#![tactic(auto)]

mod letters;
mod tails;

pub use letters::{Word, empty, push};
pub use tails::{tail, tail_word};
