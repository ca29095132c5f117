//! A place in a source.

/// A place in a source: its line, and its column in bytes, both counted from 1.
#[derive(Clone, Copy, PartialEq, Eq, Drop)]
pub struct Pos {
    pub line: u32,
    pub col: u32,
}
