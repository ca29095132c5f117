//! Calls of declared, bound and built-in procedures, and of procedure variables, judged by the rules
//! where their parts are judged already.
#![tactic(auto, using(ob_rules::proofs::BookLaws::after_none, ob_rules::proofs::BookLaws::after_joined))]

mod actuals;
mod bound;
mod callees;
mod meants;
mod rows;

pub use actuals::{Passed, meant_actual, not_a_variable, value_actual};
pub use bound::{call_bound, is_nearest_sound, is_receiver_read_only, unless_broken};
pub use callees::{call_out, call_procedure, call_variable, misplaced, out_signature};
pub use meants::{as_call, is_callable, is_guardable, takes_type};
pub use rows::{row_before, row_with};
