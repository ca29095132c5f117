//! What imported modules show to the rules of the language: their objects, without places, numbers
//! and words.
#![tactic(auto)]

mod blank;
mod shown;

pub use blank::BlankRecords;
pub use shown::Shown;
