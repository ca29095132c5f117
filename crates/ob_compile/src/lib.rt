//! The compile of a source: its symbol file and its object file, or the first refusal.
#![tactic(auto)]

mod answers;
mod compiler;
mod compiling;
mod faces;
mod files;
mod held;
mod limits;
mod prints;
mod rules;
mod shown;
mod source;

pub use compiler::Compiler;
pub use compiling::compile;
