//! Why a text has no tokens.

ghost use Rattle.std.specs.Prelude.{◌≡◌};
ghost use Rattle.ob_scan.specs.declared.fault.ScanFault.TheVariants.{Memory};

use ob_tree::Pos;
use std::alloc::{AllocError, AllocFailed};

/// Why a text has no tokens.
#[derive(Clone, Copy, PartialEq, Eq, Drop)]
pub enum ScanFault {
    /// No symbol of the vocabulary begins here. An unfinished string or comment is one at its
    /// start, and so is a string with a line end or a byte above 127 in it.
    Symbol { pos: Pos },
    /// A real number begins here.
    Real { pos: Pos },
    /// An identifier of more than 64 characters begins here.
    Limit { pos: Pos },
    /// There was no memory.
    Memory,
}

impl From<AllocError> for ScanFault {
    ghost from_gives = { λ _ e. e ≡ Memory };

    fn from(_: AllocError) -> Self {
        ScanFault::Memory
    }
}

impl<T: Drop> From<AllocFailed<T>> for ScanFault {
    ghost from_gives = { λ _ e. e ≡ Memory };

    fn from(_: AllocFailed<T>) -> Self {
        ScanFault::Memory
    }
}
