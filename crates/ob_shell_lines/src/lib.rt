//! The lines of a script: where each ends, and what it says.
#![tactic(auto)]

mod lines;

pub use lines::{LineWords, next_line, words_of};
