//! Descriptors of record types: their bases, words and procedure tables, and the type test.
#![tactic(auto)]

mod declaration;
mod descriptor;
mod descriptors;
mod steps;

pub use declaration::{Declaration, OwnMethod};
pub use descriptor::Descriptor;
pub use descriptors::Descriptors;
pub use steps::Steps;
