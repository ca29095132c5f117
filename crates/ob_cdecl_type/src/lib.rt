//! Types and parameters as they are written, judged by the rules: what they are, and what they make.
#![tactic(auto)]

mod arrays;
mod lengths;
mod pointers;
mod types;

pub use ob_cdecl_field::{Parameters, Typed, check_mark, is_module_level};
pub use types::{check_parameters, check_type};
