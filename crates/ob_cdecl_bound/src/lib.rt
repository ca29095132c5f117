//! What is judged when all headings of a module are known: the bound procedures of its records, what
//! was left for later of pointers and fields, and how long the chains of its types are.
#![tactic(auto)]

mod bindings;
mod depth;
mod fields;
mod parts;
mod pointers;

pub use bindings::bind;
pub use depth::is_deep;
pub use fields::fields_judged;
pub use pointers::pointers_judged;
