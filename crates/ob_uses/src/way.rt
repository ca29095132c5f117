//! Ways from one type to others.

/// Through which types others are reached.
#[derive(Clone, Copy, PartialEq, Eq)]
pub enum Way {
    /// Through all types that stand near a type: what an alias stands for, a pointer's base, an
    /// array's element, a record's base, and the parameters and the result of a procedure type.
    Near,
    /// Through those in whose words a type's own are counted: aliases, elements of arrays, and the
    /// base and the fields of the module's own records.
    Flat,
    /// Through what the module's interface shows of its own types.
    Shown,
}
