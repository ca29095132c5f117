//! What the rules see to of each build alone: its variables, its arrays, and what its procedures take,
//! give and have inside.
#![tactic(auto)]

pub mod law_passed;
pub mod law_ruled;
