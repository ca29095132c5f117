//! Round brackets behind a designator, judged by the rules where the arguments in them are judged, and
//! noted, already. Nothing here goes down a text.
#![tactic(auto, using(ob_rules::proofs::BookLaws::after_none, ob_rules::proofs::BookLaws::after_joined))]

mod actuals;
mod arguments;
mod callables;
mod opening;
mod parameters;

pub use actuals::with_actual;
pub use arguments::Argument;
pub use callables::{Callable, called, params};
pub use opening::{Opened, open_round};
pub use parameters::{further, parameter};
