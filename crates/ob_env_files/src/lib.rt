//! Symbol files that were read: shared, and kept by their bytes, so that the same bytes are not read anew.
#![tactic(auto)]

mod cache;
mod file;
mod reader;

pub use cache::SymbolCache;
pub use file::SymbolFile;
pub use reader::SymbolReader;
