//! Exported procedures.

use ob_tree::Name;

/// An exported procedure of a loaded module.
#[derive(Drop)]
pub struct Exported {
    pub name: Name,
    /// Its number in the module.
    pub procedure: u32,
    /// Whether it has neither parameters nor result.
    pub is_command: bool,
}
