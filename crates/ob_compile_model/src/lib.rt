//! What a compile is, step by step, by prints or by texts; and why one is refused.
#![tactic(auto)]

mod fault;

pub use fault::{CompileFault, CompileRefusal};
