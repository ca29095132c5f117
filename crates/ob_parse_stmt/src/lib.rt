//! The parser of statements, a function for each rule of the grammar.
#![tactic(auto)]

mod plain;
mod start;
mod stmt;

pub use stmt::nested_statements;
