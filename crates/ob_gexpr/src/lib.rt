//! The code of designators and expressions.
#![tactic(auto)]

mod calls;
mod constants;
mod exprs;
mod pieces;
mod places;
mod relations;
mod types;

pub use exprs::{put_designator, put_expr};
pub use places::put_variable;
