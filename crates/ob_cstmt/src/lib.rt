//! Statements, judged by the rules.
#![tactic(auto, using(ob_rules::proofs::BookLaws::after_none, ob_rules::proofs::BookLaws::after_joined))]

mod assign;
mod calls;
mod conditions;
mod guards;
mod labels;
mod loops;
mod returns;
mod single;
mod walk;

pub use walk::check_stmts;
