//! The calls of the machine and their returns, by the table.
#![tactic(auto)]

mod arguments;
mod callee;
mod calling;
mod calls;
mod entering;
mod instruction;
mod methods;
mod returns;
mod rows;

pub use calling::Called;
pub use calls::{Calls, Place};
pub use instruction::call_or_return;
