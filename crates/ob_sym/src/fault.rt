//! Why a symbol file could not be read.

use thiserror::Error;

/// Why a symbol file could not be read.
#[derive(Clone, Copy, Debug, Error)]
pub enum SymFault {
    /// The bytes are no symbol file.
    #[error("damaged")]
    Damaged,
    /// Memory was wanting. It says nothing of the bytes.
    #[error("no memory")]
    Memory,
}
