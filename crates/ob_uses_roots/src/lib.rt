//! Where the text of a module counts for its uses: a walk over the checked tree that notes the
//! names of the types whose shapes and whose layouts count.
#![tactic(auto)]

mod calls;
mod decls;
mod exprs;
mod methods;
mod noted;
mod notes;
mod stmts;

pub use decls::count_module;
pub use noted::Noted;
