//! Why a module gets no object file.

use ob_tree::Which;

/// Why a module gets no object file.
#[derive(Clone, Copy)]
pub enum GenFault {
    /// It exceeds that limit.
    Limit(Which),
    /// A count, a number or a name of it is beyond those that code is made with (`CodeFault::Beyond`).
    /// No module comes to it that keeps the rules and the limits, over interfaces that compiles wrote.
    Beyond,
    /// Memory was wanting.
    Memory,
}
