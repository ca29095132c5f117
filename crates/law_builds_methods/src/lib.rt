//! The bound procedures of builds that are loaded together are methods of their program, and like those
//! of their families.
#![tactic(auto)]

pub mod law_belonging;
pub mod law_likeness;
