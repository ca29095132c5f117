//! Descriptions as texts: the one text of a description, and the description of a text.
//!
//! Each object has a shape text, and a record a layout text beside. A text is ASCII on one line,
//! with single spaces. Numbers are decimal without leading zeros.
#![tactic(auto)]

mod constants;
mod kind;
mod members;
mod reading;
mod shapes;
mod signatures;
mod types;
mod words;
mod writing;

pub use kind::{ConstKind, Kind};
pub use reading::{described, read_desc};
pub use writing::write_desc;
