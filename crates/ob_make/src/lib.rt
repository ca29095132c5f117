//! In which order modules are made, and which of them are stale.
#![tactic(auto)]

mod faces;
mod fault;
mod files;
mod held;
mod law;
mod needs;
mod ordering;
mod staleness;
mod turns;

pub use faces::Faces;
pub use fault::MakeFault;
pub use law::{fresh_is_up_to_date, needs_are_all, order_stands, orders_agree};
pub use ordering::order;
pub use staleness::{stale, turn};
pub use turns::Turn;
