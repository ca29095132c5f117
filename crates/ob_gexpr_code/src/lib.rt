//! The code so far, what the code of a procedure looks up, and single lines of code.
#![tactic(auto)]

mod code;
mod fault;
mod lines;
mod links;
mod scope;
mod type_links;
mod typed;
mod wants;

pub use code::{Code, CodeParts};
pub use fault::CodeFault;
pub use lines::{
    bytes_of, put_bare, put_bare_at, put_count, put_jump, put_jump_back, put_placed, put_plain,
};
pub use links::Links;
pub use scope::Scope;
pub use type_links::TypeLinks;
pub use typed::{put_typed, put_typed_and, put_typed_behind};
pub use wants::want_for;
