//! Calls of predeclared procedures, judged by the rules where their parameters are judged already.
#![tactic(auto, using(ob_rules::proofs::BookLaws::after_none, ob_rules::proofs::BookLaws::after_joined))]

mod extremes;
mod fits;
mod parameters;

pub use extremes::{extreme, no_extreme};
pub use fits::call_fit;
pub use parameters::{
    asked_first, asked_second, changed_meant, changed_value, constant_parameter, is_function,
};
