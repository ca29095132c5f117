//! Whether the code of a module keeps its limit, asked of its checked tree before any code is made.
#![tactic(auto)]

mod exprs;
mod limits;
mod pieces;
mod stmts;

pub use exprs::{lines_of_designator, lines_of_expr};
pub use limits::has_short_code;
pub use pieces::MOST_CODE;
pub use stmts::lines_of_stmts;
