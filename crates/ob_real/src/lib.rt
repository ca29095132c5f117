//! The script, the output and the folder of the machine. They tell nothing of what they hold, count their faults, and
//! keep what the system said of the last one.
#![tactic(auto)]

mod ends;
mod folder;
mod sink;
mod source;

pub use ends::{CutShort, Why, cut_short};
pub use folder::{Lost, Operation, RealFolder};
pub use sink::RealSink;
pub use source::RealSource;
