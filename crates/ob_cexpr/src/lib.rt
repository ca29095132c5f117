//! Expressions and designators, judged by the rules. What the walk over a text calls is not inlined, here
//! and in the crates below, so that a level of nesting takes little of the stack.
#![tactic(auto, using(ob_rules::proofs::BookLaws::after_none, ob_rules::proofs::BookLaws::after_joined))]

mod actuals;
mod calls;
mod checker;
mod designators;
mod predeclared;
mod walk;

pub use checker::ExprChecker;
pub use designators::check_designator;
pub use walk::{check_constant, check_expr};
