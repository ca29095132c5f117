//! The lines of a script that is read by pieces.
#![tactic(auto)]

mod next;
mod reading;

pub use next::{Next, NextFault};
pub use reading::{Input, next_line};
