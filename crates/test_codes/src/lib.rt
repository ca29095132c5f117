//! A machine with one module, which has no links, and the object file of a module whose code is written as
//! text.
#![tactic(auto)]

mod alone;
mod assembly;

pub use alone::{machine_of, stands_alone};
pub use assembly::{Misspelt, Module, Procedure, RecordType, assemble};
