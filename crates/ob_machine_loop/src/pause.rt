//! Where the instructions of a call end.

use ob_instr::Instr;
use ob_trap::Trap;

/// Where the instructions of a call end, or are to go on in another one.
#[derive(Clone, Copy, PartialEq, Eq, Drop)]
pub enum Pause {
    /// The next instruction is this call or return.
    Calls(Instr),
    /// A trap, with the number that it tells beside its own.
    Traps { kind: Trap, number: i32 },
    /// No turn was left.
    Spent,
    /// The instruction cannot be executed, or there is none.
    Illegal,
    /// The sink failed: a front of the text was written.
    SinkFault,
}
