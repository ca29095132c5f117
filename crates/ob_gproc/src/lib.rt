//! The object file of a checked module: its procedures' code, its tables and its links.
#![tactic(auto)]

mod bases;
mod code;
mod exported;
mod fault;
mod file;
mod made;
mod module_scope;
mod places;
mod records;
mod rows;
mod scope;
mod tables;
mod whole;

pub use fault::GenFault;
pub use file::object_file;
