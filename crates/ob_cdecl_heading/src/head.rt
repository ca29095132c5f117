//! Headings as they were judged.

use ob_cdecl_field::Parameters;
use ob_cdecl_scopes::Inside;
use ob_rules::Notebook;
use ob_tree::{Ident, Mark, Name, ObjName, Pos, QName};
use ob_types::{Receiver, TypeRef};

/// What a bound procedure is bound to: the type of its receiver, the record, and the kind.
#[derive(Drop)]
pub struct BoundAs {
    pub of: TypeRef,
    pub owner: QName,
    pub receiver: Receiver,
}

/// The heading of a procedure or of a forward declaration, as it was judged.
#[derive(Drop)]
pub struct Head {
    /// Where its name stands.
    pub at: Pos,
    pub name: Name,
    pub forward: bool,
    /// Whether it has a receiver.
    pub is_bound: bool,
    /// Where the receiver keeps all rules, what the procedure is bound to.
    pub bound: Option<BoundAs>,
    pub mark: Mark,
    /// Its name in the module.
    pub path: ObjName,
    /// The receiver's name.
    pub receiver: Option<Ident>,
    /// Its parameters, where the heading keeps all rules.
    pub parameters: Option<Parameters>,
    /// What is said of the heading.
    pub notes: Notebook,
    /// The names that are declared in the heading.
    pub inside: Inside,
    /// How many names are known behind the heading.
    pub behind: usize,
}
