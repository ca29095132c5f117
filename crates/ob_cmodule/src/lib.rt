//! Modules, judged by the rules: the least broken rule, or the checked module.
#![tactic(auto)]

mod module;
mod tree;

pub use module::{Checked, check_module};
