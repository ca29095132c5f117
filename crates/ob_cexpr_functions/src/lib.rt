//! Predeclared functions, judged by the rules where their parameters are judged already.
#![tactic(auto, using(ob_rules::proofs::BookLaws::after_none, ob_rules::proofs::BookLaws::after_joined))]

mod lengths;
mod operations;

pub use lengths::{len, len_first};
pub use operations::{abs, ash, long, short, unary_if};
