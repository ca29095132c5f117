//! What is done of a module at its turn.

/// What a line `make` does of a module when its turn comes.
#[derive(Clone, Copy, PartialEq, Eq, Drop)]
pub enum Turn {
    /// Nothing: it is passed over, or it is up to date.
    Stays,
    /// It is stale, and is compiled.
    Compiles,
    /// It is stale, and its source counts as missing.
    LacksSource,
}
