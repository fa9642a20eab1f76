// Gate words: SPEC, "Gate words".
#![tactic(auto)]

mod elements;
mod letters;
mod parity;
mod spell;
mod states;

pub use gate_clifford::{Word, tail_word};
pub use letters::ts;
pub use spell::{conjugate_word, word};
