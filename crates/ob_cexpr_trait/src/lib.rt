//! What the checkers of declarations and statements ask of the one of expressions, whatever it is.
#![tactic(auto)]

mod check;
mod start;

pub use check::CheckExpr;
pub use start::start_of;
