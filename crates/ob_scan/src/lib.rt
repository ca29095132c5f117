//! The scanner.
#![tactic(auto)]

mod bytes;
mod fault;
mod gap;
mod scanner;
mod symbols;
mod words;

pub use fault::ScanFault;
pub use scanner::{Scanner, scan};
