//! A procedure by the numbers of its module and its own.

/// A procedure of a machine: its module's number, and its own number in that module.
/// Number 0 is the module's body.
#[derive(Clone, Copy, PartialEq, Eq, Drop)]
pub struct ProcRef {
    pub module: u32,
    pub proc: u32,
}
