//! How many objects of an interface are new, changed and gone.

/// The objects of an interface beside one that stood there.
#[derive(Clone, Copy, PartialEq, Eq, Drop)]
pub struct Counts {
    pub objects: usize,
    /// Names that only the new one has.
    pub added: usize,
    /// Names that both have, with different texts.
    pub changed: usize,
    /// Names that only the old one has.
    pub gone: usize,
}
