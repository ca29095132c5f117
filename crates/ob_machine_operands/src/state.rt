//! What the instructions change.

use ob_mem::Memory;
use ob_trap::Trap;

/// What the instructions change.
#[derive(Drop)]
pub struct State {
    /// The words of all areas, and the heap's next free word.
    pub words: Memory,
    /// The address of the stack's next free word.
    pub stack: u32,
    /// The operands of the call that runs, the last one last.
    pub operands: Vec<i32>,
    /// The turns that are left.
    pub turns: u32,
}

/// What one instruction did.
#[derive(Clone, Copy, PartialEq, Eq, Drop)]
pub enum Step {
    /// The machine goes on behind the instruction.
    Goes,
    /// The machine goes on at the instruction of an index.
    Jumps(u32),
    /// A trap, with the number that it tells beside its own.
    Traps { kind: Trap, number: i32 },
    /// No turn was left.
    Spends,
    /// The instruction cannot be executed.
    Unable,
    /// The low eight bits of a word are to be written.
    Char(i32),
    /// A text is to be written: the low eight bits of `count` words, which stand behind `start` others.
    Text { start: u32, count: u32 },
    /// A number is to be written, with its width.
    Number { number: i32, width: i32 },
    /// The end of a line is to be written.
    Line,
    /// A call or a return, of which nothing is done.
    Calls,
}
