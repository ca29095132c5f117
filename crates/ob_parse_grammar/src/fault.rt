//! Why tokens are no module.

ghost use Rattle.std.specs.Prelude.{◌≡◌};
ghost use Rattle.ob_parse_grammar.specs.declared.fault.ParseFault.TheVariants.{Memory};

use ob_tree::Pos;
use std::alloc::{AllocError, AllocFailed};

/// Why tokens are no module.
#[derive(Clone, Copy, PartialEq, Eq, Drop)]
pub enum ParseFault {
    /// No module goes on with the token that stands here.
    Syntax { pos: Pos },
    /// The token that stands here is inside more than 200 nested phrases.
    TooDeep { pos: Pos },
    /// There was no memory.
    Memory,
}

impl From<AllocError> for ParseFault {
    ghost from_gives = { λ _ e. e ≡ Memory };

    fn from(_: AllocError) -> Self {
        ParseFault::Memory
    }
}

impl<T: Drop> From<AllocFailed<T>> for ParseFault {
    ghost from_gives = { λ _ e. e ≡ Memory };

    fn from(_: AllocFailed<T>) -> Self {
        ParseFault::Memory
    }
}
