//! The types that builds which are loaded together show are closed, lines of them are short, and the
//! maps of types around their bodies are steady.
#![tactic(auto)]

pub mod law_assured;
pub mod law_closed;
pub mod law_encircled;
pub mod law_lined;
pub mod law_pointed;
