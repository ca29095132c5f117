//! What a checked module uses of others, and what is reached from types.
#![tactic(auto)]

mod laws;
mod leads;
mod pair;
mod pairs;
mod prints;
mod reach;
mod sorted;
mod uses;
mod way;

pub use laws::{reaching_is_exact, view_is_held};
pub use leads::{add_optional, add_type, shows};
pub use pair::Pair;
pub use pairs::pairs_of;
pub use prints::Prints;
pub use reach::search;
pub use sorted::sorted_pairs;
pub use uses::uses_of;
pub use way::Way;
