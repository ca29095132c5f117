//! The code that a module gets, and its object file, as definitions over its checked tree.
#![tactic(auto)]

ghost use Rattle.ob_scheme.specs.Laws.{ExpressionsEnd, StatementsEnd};

mod want;
mod wants;

pub use want::Want;
pub use wants::{has_tag, want_for_guard, want_for_index, want_for_source, want_for_target};

/// The law of the ends of expressions: what is said of where their code ends is so.
pub fn expressions_end()
    ensures { ExpressionsEnd }
{}

/// The law of the ends of statements, likewise.
pub fn statements_end()
    ensures { StatementsEnd }
{}
