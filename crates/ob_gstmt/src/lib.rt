//! The code of statements.
#![tactic(auto)]

mod choices;
mod loops;
mod stmts;
mod straight;

pub use stmts::{put_stmt, put_stmts};
