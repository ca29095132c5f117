//! What a checked module shows to others: its objects, and its interface.
#![tactic(auto)]

mod ascending;
mod copies;
mod entry;
mod interface;
mod objects;
mod placed;
mod starts;

pub use interface::interface_of;
pub use objects::objects_of;
