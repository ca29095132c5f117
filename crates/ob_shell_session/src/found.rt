//! What a symbol file is found to be.

use ob_types::Interface;

/// What a symbol file is, of whatever module.
#[derive(Drop)]
pub enum SymbolFile {
    Missing,
    /// It has more than 16,777,216 bytes.
    Long,
    Damaged,
    Of(Interface),
}
