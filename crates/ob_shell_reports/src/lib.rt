//! What the lines of a script print, and why a session is cut short.
#![tactic(auto)]

mod compiles;
mod counts;
mod files;
mod loads;
mod makes;
mod printing;
mod reports;
mod stop;

pub use compiles::{put_compiled, put_demo, refuse_compile};
pub use counts::Counts;
pub use files::{put_compare, put_stale, refuse};
pub use loads::refuse_load;
pub use makes::{put_made, refuse_cycle, refuse_many};
pub use printing::tell;
pub use reports::put_report;
pub use stop::Stop;
