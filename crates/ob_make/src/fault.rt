//! Why there is no order, or no answer.

use ob_tree::Name;

/// Why modules are not made.
#[derive(Drop)]
pub enum MakeFault {
    /// A need of this module stands on the path to it.
    Cycle {
        /// The module that needs it.
        module: Name,
    },
    /// More than 255 modules are met.
    TooMany {
        /// The number of the one that is too many: 256.
        count: u32,
    },
    /// The folder failed.
    Folder,
    /// Memory was wanting.
    Memory,
}
