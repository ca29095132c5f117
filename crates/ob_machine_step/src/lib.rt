//! What each instruction of the machine does that is no call and no return, by the table.
#![tactic(auto)]

mod acting;
mod jumps;
mod memory;
mod objects;
mod records;
mod shifts;
mod texts;
mod types;
mod writing;

pub use acting::{Place, effect};
pub use texts::word_behind;
