//! Heights of the objects of interfaces, each above the heights of all on which the object stands;
//! and, where no such heights are found, marks of the types on which no chain of types is too long.
#![tactic(auto)]

mod heights;
mod ranked;
mod tested;
mod within;

pub use heights::heights_behind;
pub use ranked::faces_keep;
pub use tested::{Test, all_named};
pub use within::{is_name_marked, ranks_of, within_marks};
