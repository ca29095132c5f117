//! Checked trees as their owners hold them: each recursive tree stands behind a struct that lets it
//! go, so that a crate above sees one call where a tree ends, and nothing of its parts. Nodes are
//! made here, of the trees below them. Exact copies of what trees are made of stand here too.
#![tactic(auto)]

mod copies;
mod designator;
mod destructors;
mod expr;
mod module;
mod stmt;

pub use copies::{
    copy_desc, copy_field, copy_method, copy_name, copy_record, copy_signature, copy_type,
    copy_value, copy_variable,
};
pub use designator::{DesignatorTree, DesignatorTrees};
pub use expr::{ActualTrees, ExprTree};
pub use module::{ModuleTree, ProcedureTrees};
pub use stmt::{BranchTrees, CaseTrees, StmtTree, StmtTrees};
