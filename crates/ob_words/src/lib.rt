//! The words of the command line: the settings that they say.
#![tactic(auto)]

mod asked;
mod numbers;
mod words;

pub use asked::{Settings, WordsFault};
pub use words::settings;
