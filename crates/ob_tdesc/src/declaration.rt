//! What a record type declares to the machine.

use ob_tree::{List, Name, ObjName, ProcRef};

/// A bound procedure that a record type defines.
#[derive(Clone, Copy, Drop)]
pub struct OwnMethod {
    /// Its number among the type's bound procedures.
    pub number: u32,
    /// The procedure.
    pub procedure: ProcRef,
}

/// A record type by what it declares itself.
#[derive(Drop)]
pub struct Declaration {
    /// The module that declares the type.
    pub module: Name,
    /// The type's name in it.
    pub name: ObjName,
    /// The number of its base's descriptor.
    pub base: Option<u32>,
    /// The words of a record, those of its base among them.
    pub words: u32,
    /// The number of its bound procedures, those of its base among them.
    pub count: u32,
    /// The bound procedures that it defines.
    pub methods: List<OwnMethod>,
}
