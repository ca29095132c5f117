//! The modules in the machine: what object files become when they are entered.
#![tactic(auto)]

mod callable;
mod describing;
mod globals;
mod image;
mod index;
mod links;
mod loaded;
mod places;
mod types;

pub use callable::Callable;
pub use image::Image;
pub use loaded::Module;
pub use types::Types;
