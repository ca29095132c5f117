//! The rules of the language, as definitions over trees, and what they share with the checkers: what
//! is broken, what names stand for, what designators and expressions come to, what is noted on the
//! way, and how a checker looks up what stands around it.
#![tactic(auto)]

mod broken;
mod entity;
mod meant;
mod notes;
mod surroundings;
mod values;

pub use broken::{Broken, Predeclared, Rule, earlier};
pub use entity::{Bound, Coming, Entity, Known, Received};
pub use meant::{Asked, Chosen, ElementOf, Meant, Selects, Where};
pub use notes::{Later, Notebook};
pub use surroundings::Surroundings;
pub use values::{Computed, Place, Valued};
