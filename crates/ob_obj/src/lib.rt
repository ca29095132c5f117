//! Object files: their grammar, reading and writing.
#![tactic(auto)]

mod checks;
mod file;
mod parts;

pub use file::{Body, Globals, Head, Links, ObjFault, ObjFile, read_obj, write_obj};
pub use parts::{Base, Command, Definition, Export, Link, RecordType, StringConst, Variable};
