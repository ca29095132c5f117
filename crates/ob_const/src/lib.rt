//! What constants come to: operators, relations and predeclared functions of constants, and the
//! values of literals. Where there is no value, the rule of constant expressions is broken.
#![tactic(auto)]

mod fold;
mod literals;
mod numbers;
mod relations;
mod sets;
mod shifts;
mod texts;
mod values;

pub use fold::{fold_logical, fold_one, fold_two};
pub use literals::{char_value, integer_value, string_value};
pub use texts::fold_texts;
pub use values::extreme;
