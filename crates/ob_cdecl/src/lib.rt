//! Constants, types, variables and imports, as they are declared.
#![tactic(auto)]

mod books;
mod contents;
mod decls;
mod described;
mod imports;
mod order;
mod types;
mod variables;

pub use books::{append_notes, take_later};
pub use contents::Contents;
pub use decls::{constant_declared, declare_new};
pub use described::{all_described, coming_within};
pub use imports::{closing_judged, imported, imports_declared, name_judged};
pub use order::plain_in_order;
pub use types::{mark_or_hidden, object_name, type_declared};
pub use variables::variables_declared;
