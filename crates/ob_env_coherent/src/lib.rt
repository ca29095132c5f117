//! Which interfaces stand together: each stored use is met, and each object fits.
#![tactic(auto)]

mod behind;
mod coherent;
mod conditions;
mod fit;
mod names;
mod stale;
mod targets;

pub use behind::faces_behind;
pub use coherent::CoherentEnv;
