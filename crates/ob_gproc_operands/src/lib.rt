//! How many operands stand at most while the code of a module runs, asked of its checked tree before any code is made.
#![tactic(auto)]

mod exprs;
mod limits;
mod stmts;
mod wants;

pub use exprs::{operands_of_designator, operands_of_expr};
pub use limits::has_few_operands;
pub use stmts::operands_of_stmts;
pub use wants::{MOST_OPERANDS, want_for_actual};
