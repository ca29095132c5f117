//! Variables, commands and definitions in the order in which an object file has them.
#![tactic(auto)]

mod defined;
mod named;
mod order;

pub use order::{commands_in_order, definitions_in_order, variables_in_order};
