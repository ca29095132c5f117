//! A symbol where it stands.

use crate::pos::Pos;
use crate::symbol::Symbol;

/// A symbol where it stands: its text borrows the source, and its position is that of its
/// first byte. The text of `End` is empty.
#[derive(Clone, Copy)]
pub struct Token<'a> {
    pub symbol: Symbol,
    pub text: &'a [u8],
    pub pos: Pos,
}
