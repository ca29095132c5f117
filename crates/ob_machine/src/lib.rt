//! The machine: object files are entered into it, and it runs their procedures by the table.
#![tactic(auto)]

mod machine;
mod outcome;
mod running;

pub use machine::{Entered, Machine};
pub use outcome::Outcome;
