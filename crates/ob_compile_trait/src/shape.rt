//! What a compile gives.

use ob_env_files::SymbolFile;
use ob_tree::Text;

/// What the compile of a module gives: its symbol file, which contracts see as its interface, and the
/// bytes of its two files.
#[derive(Drop)]
pub struct Built {
    pub face: SymbolFile,
    pub sym: Text,
    pub obj: Text,
}
