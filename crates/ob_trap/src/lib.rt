//! The traps in which a run can end, and their numbers.
#![tactic(auto)]

mod trap;

pub use trap::{TRAPS, Trap};
