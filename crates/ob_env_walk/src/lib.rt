//! The walk of a module's imports through the symbol files of a folder.
#![tactic(auto)]

mod walking;

pub use walking::{WalkStop, walk};
