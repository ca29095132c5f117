//! The next line, or why there is none.

/// Why there is no next line.
#[derive(Clone, Copy, PartialEq, Eq, Drop)]
pub enum NextFault {
    /// The script failed, and its count of faults rose.
    Failed,
    Memory,
}

/// What is next in a script, so many bytes of which are then taken.
#[derive(Clone, Copy, PartialEq, Eq)]
pub enum Next {
    /// A line whose byte 10 is taken.
    Line(u32),
    /// The bytes behind the last byte 10.
    Last(u32),
    /// Nothing is left.
    End,
    /// A line that passes a limit.
    Passes,
}
