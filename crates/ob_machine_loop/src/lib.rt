//! Runs the instructions of one call, up to the next call or return, with what they write.
#![tactic(auto)]

mod pause;
mod print;
mod running;

pub use pause::Pause;
pub use running::go;
