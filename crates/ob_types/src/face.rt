//! Interfaces: objects, and uses of objects.

use crate::desc::Desc;
use ob_tree::{List, Name, ObjName, Print, QName};

/// What of an object a module may rely on.
#[derive(Clone, Copy, Debug, PartialEq, Eq)]
pub enum Aspect {
    /// Its shape text.
    Shape,
    /// The layout text of a record: its words and its number of bound procedures.
    Layout,
}

/// An object of another module that a module was compiled against, with the aspect and its print.
#[derive(Drop)]
pub struct Use {
    pub object: QName,
    pub aspect: Aspect,
    pub print: Print,
}

/// An object of a module, with the prints of its texts: of its shape, and of a record's layout.
#[derive(Drop)]
pub struct Object {
    pub name: ObjName,
    pub desc: Desc,
    pub shape: Print,
    pub layout: Option<Print>,
}

/// What a module shows to others: its imports in the order of its source, its objects ascending
/// by name, and its uses ascending by module, object and aspect.
#[derive(Drop)]
pub struct Interface {
    pub module: Name,
    pub imports: List<Name>,
    pub objects: List<Object>,
    pub uses: List<Use>,
}
