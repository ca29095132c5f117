//! The machine's memory: the words of three areas, the globals at the addresses 1 to 262,144, the
//! stack at the next 1,048,576, and the heap behind them.
#![tactic(auto)]

mod memory;

pub use memory::{GLOBAL_WORDS, Memory, STACK_WORDS};
