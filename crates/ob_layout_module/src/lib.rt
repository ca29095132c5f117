//! The layout of a module's own records: the places of their fields, the numbers of the bound
//! procedures that they introduce, their words and the number of their bound procedures.
#![tactic(auto)]

mod counts;
mod laying;
mod records;
mod sums;

pub use laying::lay_out;
