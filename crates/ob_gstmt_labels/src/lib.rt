//! Where the code of designators, expressions and statements ends, before it is made.
#![tactic(auto)]

mod exprs;
mod sizes;
mod stmts;

pub use exprs::{end_designator, end_expr};
pub use sizes::{
    between, constant_size, guard_size, joined, place_size, unary_size, variable_size,
};
pub use stmts::{end_stmt, end_stmts};
