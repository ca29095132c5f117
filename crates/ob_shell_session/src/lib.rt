//! The lines of a script, with whatever compiles: what a session does by the bytes of files.
#![tactic(auto)]

mod commanding;
mod comparing;
mod compiling;
mod counting;
mod demo;
mod files;
mod found;
mod line;
mod making;
mod saying;
mod script;

pub use ob_shell_reports::Stop;
pub use script::do_all;
