//! The limits of a module, by name.

/// A limit that a module can exceed, by the word that a refusal prints.
#[derive(Clone, Copy, PartialEq, Eq, Drop)]
pub enum Which {
    /// 64 imports in a module.
    Imports,
    /// 255 modules in a walk.
    Modules,
    /// 4,096 objects in an interface.
    Objects,
    /// 200 types in a chain in which each stands on the next.
    Depth,
    /// 1,048,576 words in a type.
    Words,
    /// 1,048,576 words in a procedure's activation.
    Frame,
    /// 262,144 words of globals.
    Globals,
    /// 4,096 procedures in a module.
    Procedures,
    /// 256 operands in an activation.
    Operands,
    /// 262,144 instructions in a module.
    Code,
    /// 16,777,216 bytes in a file.
    File,
}
