//! Symbol files: what a module shows to others, as bytes.
//!
//! A symbol file has the module's name, its imports, its objects with their texts, and its uses
//! with their prints. It is read exactly where the bytes are one, and written in its one spelling.
#![tactic(auto)]

mod fault;
mod object;
mod sym;

pub use fault::SymFault;
pub use sym::{read_sym, write_sym};
