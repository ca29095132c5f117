//! Whether what a compile makes has a spelling as a file.
#![tactic(auto)]

mod checks;
mod desc;
mod face;
mod file;
mod groups;
mod lists;
mod parts;
mod short;

pub use face::has_symbol_file;
pub use file::has_object_file;
