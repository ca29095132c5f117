//! Trees, names and positions, which contracts see as plain data.
#![tactic(auto)]

mod boxed;
mod compact_name;
mod decl;
mod expr;
mod ident;
mod list;
mod mention;
mod name;
mod names;
mod pos;
mod print;
mod proc_ref;
mod spelling;
mod stmt;
mod symbol;
mod text;
mod token;
mod type_node;
mod which;

pub use boxed::Boxed;
pub use compact_name::CompactName;
pub use decl::{Decl, Heading, Module, Receiver};
pub use expr::{Designator, Element, Expr, Operator, Relation, Selector, Sign, Tail};
pub use ident::{Ident, IdentDef, Import, Mark, Qualident};
pub use list::List;
pub use mention::Mention;
pub use name::Name;
pub use names::{ObjName, QName};
pub use pos::Pos;
pub use print::Print;
pub use proc_ref::ProcRef;
pub use spelling::Spelling;
pub use stmt::{Branch, Case, Guard, GuardedBranch, Stmt};
pub use symbol::Symbol;
pub use text::Text;
pub use token::Token;
pub use type_node::{FieldList, FormalPars, Section, TypeNode};
pub use which::Which;
