//! The parser of types, declarations and modules.
#![tactic(auto)]

mod decl;
mod heading;
mod imports;
mod modules;
mod procedure;
mod start;
mod type_node;

pub use modules::{parse, parse_from, read_module};
