//! Operators, relations and sets, judged by the rules.
#![tactic(auto, using(ob_rules::proofs::BookLaws::after_none))]

mod kinds;
mod misfits;
mod nodes;
mod operators;
mod relations;
mod sets;

pub use misfits::unfit;
pub use nodes::{dyadic, monadic, only_value};
pub use operators::{combined, opposite, signed};
pub use relations::related;
pub use sets::{element, set_of};
