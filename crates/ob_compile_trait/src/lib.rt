//! What a compile promises to those that ask for one, whatever does it.
#![tactic(auto)]

mod compile;
mod shape;

pub use compile::Compile;
pub use shape::Built;
