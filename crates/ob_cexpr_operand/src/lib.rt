//! What the parts of expressions and designators come to where the parts below them are judged, and
//! noted, already. Nothing here goes down a text.
#![tactic(auto, using(ob_rules::proofs::BookLaws::after_none, ob_rules::proofs::BookLaws::after_joined))]

mod literals;
mod names;
mod operands;
mod phrases;
mod selectors;
mod tests;
mod values;

pub use literals::{character, integer, string};
pub use names::name_value;
pub use operands::{bracketed, combined_if, opposite_if, related_if, signed_if};
pub use phrases::{formal_at, is_one_type, name_behind, name_in, type_in_round, where_behind};
pub use selectors::{guard_misfit, guard_named, index_step, select_step, up_step};
pub use tests::{other_test, type_test};
pub use values::{
    constant_if, element_if, held_signature, no_type, row_with, set_if, there, type_parameter,
    value_if,
};
