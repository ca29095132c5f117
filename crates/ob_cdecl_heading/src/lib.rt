//! The headings of procedures, judged by the rules: what a procedure is bound to, its parameters,
//! and what is known behind its heading; and what forward declarations are to their procedures.
#![tactic(auto)]

mod forwards;
mod head;
mod heading;
mod heads;
mod keys;
mod owner;

pub use forwards::{answer_of, forwards_judged, is_same_kind};
pub use head::{BoundAs, Head};
pub use heading::add_heading;
pub use heads::Heads;
pub use keys::key_of;
pub use owner::self_of;
