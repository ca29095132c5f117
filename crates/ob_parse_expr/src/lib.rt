//! Tokens from the front on, and the parser of names, designators and expressions.
#![tactic(auto)]

mod behind;
mod cursor;
mod expr;
mod names;
mod plain;
mod source;

pub use cursor::Cursor;
pub use expr::{designator, elements, exprs, nested_expr};
pub use names::{ident_def, ident_list, idents, qualident};
