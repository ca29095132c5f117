//! Predeclared proper procedures, judged by the rules where their parameters are judged already.
#![tactic(auto, using(ob_rules::proofs::BookLaws::after_none, ob_rules::proofs::BookLaws::after_joined))]

mod news;
mod updates;

pub use news::{new_many, new_one};
pub use updates::{assert, assert_with, copy, element_step, halt, number_of, place_of, step};
