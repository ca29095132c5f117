//! What is known at a place of a module: the declared names with their scopes, the types so far,
//! the bound procedures, each found by an index.
#![tactic(auto)]

mod inside;
mod methods;
mod moves;
mod predeclared;
mod scope;
mod stack;
mod table;

pub use inside::{Inside, Outside};
pub use scope::{Imports, Marked, Scope};
pub use stack::Stack;
pub use table::{Named, Table};
