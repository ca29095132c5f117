//! Sequences of declarations with their statements, judged by the rules.
#![tactic(auto)]

mod blocks;
mod bound;
mod contents;
mod declared;
mod heads;
mod left;
mod opened;

pub use blocks::block;
