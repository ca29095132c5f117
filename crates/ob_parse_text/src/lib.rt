//! From a text to its module, with no list of tokens between.
#![tactic(auto)]

mod fault;
mod law;
mod reading;
mod text;

pub use fault::TextFault;
pub use law::answers_are_one;
pub use reading::read_module;
pub use text::parse_text;
