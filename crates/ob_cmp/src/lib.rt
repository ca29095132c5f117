//! Interfaces side by side, uses that are stale, and the text of an interface.
#![tactic(auto)]

mod check;
mod comparing;
mod lookup;
mod present;
mod showing;
mod verdict;

pub use check::{CheckFault, check_client};
pub use comparing::{compare, compare_file};
pub use lookup::find_object;
pub use showing::show;
pub use verdict::{Kind, Stale, Verdict};
