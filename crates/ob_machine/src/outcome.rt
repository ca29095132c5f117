//! How a run ended.

use ob_trap::Trap;
use ob_tree::{Name, Pos};

/// How a run ended.
#[derive(Clone, Copy, PartialEq, Drop)]
pub enum Outcome {
    /// The procedure that the run began in returned.
    Done,
    /// An instruction of the module trapped, with this position. The number is the operand that a `Trap`
    /// or an `Assert` of the code has for it, and 0 in every other trap.
    Trap {
        kind: Trap,
        number: i32,
        module: Name,
        pos: Pos,
    },
    /// An instruction of the module, with this position, was to spend a turn, and none was left.
    TurnsSpent {
        module: Name,
        pos: Pos,
    },
    /// The instruction at this index of the module's code cannot be executed, or there is none.
    Illegal {
        module: Name,
        at: u32,
    },
    /// The sink failed: a front of the text was written.
    SinkFault,
}
