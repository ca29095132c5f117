//! Names where they stand.

use crate::name::Name;
use crate::pos::Pos;

/// An identifier where it stands.
#[derive(Clone, Copy, PartialEq)]
pub struct Ident {
    pub name: Name,
    pub pos: Pos,
}

/// How far a declared name is known.
#[derive(Clone, Copy, PartialEq, Eq, Drop)]
pub enum Mark {
    /// No mark: known in its module alone.
    Hidden,
    /// `-`: other modules may read it.
    ReadOnly,
    /// `*`
    Full,
}

/// A declared name with its mark. The mark's position is the name's where there is no mark.
#[derive(Clone, Copy, PartialEq)]
pub struct IdentDef {
    pub ident: Ident,
    pub mark: Mark,
    pub mark_pos: Pos,
}

/// A name, or a name behind a qualifier and a dot. Its position is its first symbol's.
#[derive(Clone, Copy, PartialEq)]
pub struct Qualident {
    pub qualifier: Option<Ident>,
    pub ident: Ident,
}

/// An item of the import list, `ident` or `ident := target`.
#[derive(Clone, Copy, PartialEq)]
pub struct Import {
    pub ident: Ident,
    pub target: Option<Ident>,
}
