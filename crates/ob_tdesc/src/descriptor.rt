//! What the machine knows of a record type.

use ob_tree::{List, Name, ObjName, ProcRef};

/// What the machine knows of a record type, in the contracts. Its procedure table is kept as what the type
/// and its bases define.
#[derive(Drop)]
pub struct Descriptor {
    /// The module that declares the type.
    pub module: Name,
    /// The type's name in it.
    pub name: ObjName,
    /// The number of its base's descriptor.
    pub base: Option<u32>,
    /// The words of a record, those of its base among them.
    pub words: u32,
    /// Its bound procedures by number, its base's among them. A number may have none.
    pub methods: List<Option<ProcRef>>,
}
