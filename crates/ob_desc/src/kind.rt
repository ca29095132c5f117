//! The keywords that descriptions begin with.

/// The keyword that a shape text begins with.
#[derive(Clone, Copy, PartialEq, Eq)]
pub enum Kind {
    Const,
    Var,
    Proc,
    Alias,
    Array,
    OpenArray,
    Pointer,
    ProcType,
    Record,
}

/// The word of a constant's text that says what kind of value follows.
#[derive(Clone, Copy, PartialEq, Eq)]
pub enum ConstKind {
    Boolean,
    Char,
    ShortInt,
    Integer,
    LongInt,
    Set,
    String,
}
