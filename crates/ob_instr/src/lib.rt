//! The machine's instructions: their spelling in nine bytes, and the table of what each does.
#![tactic(auto)]

mod instr;
mod opcode;
mod procedure;

pub use instr::{Instr, put_instr, take_instr};
pub use opcode::{Opcode, operands_of};
pub use procedure::{MOST_WORDS, Param, Position, Procedure};
