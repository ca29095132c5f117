//! Variables, guards, dereferences, indices, fields and bound procedures, judged by the rules.
#![tactic(auto, using(ob_rules::proofs::BookLaws::after_none, ob_rules::proofs::BookLaws::after_joined))]

mod bound;
mod fields;
mod front;
mod guards;
mod places;

pub use bound::super_call;
pub use fields::{select, through};
pub use front::{Front, front_named, front_of};
pub use guards::{guard, guard_of, if_extends};
pub use places::{dereference, index, variable_named};
