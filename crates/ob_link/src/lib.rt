//! Which object files a load brings in, and where it is refused.
#![tactic(auto)]

mod exported;
mod fault;
mod finding;
mod index;
mod judging;
mod loaded;
mod member;
mod names;
mod planning;
mod shape;
mod walking;

pub use exported::Exported;
pub use fault::{LoadFault, LoadRefusal};
pub use loaded::Loaded;
pub use member::Member;
pub use names::Names;
pub use planning::plan;
pub use shape::Plan;
