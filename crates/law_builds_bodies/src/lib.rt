//! The procedures and bodies of builds that are loaded together: their variables can be built, and they
//! keep the limits.
#![tactic(auto)]

pub mod law_built;
pub mod law_limits;
