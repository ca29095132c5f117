//! An instruction, and its bytes.

ghost use Rattle.std.specs.Prelude.{◌≡◌, ◌++◌, IfSome, IfNone, OnOk, Some};
ghost use Rattle.ob_format.specs.Format.{Gives, Finds, whole};
ghost use Rattle.ob_instr.specs.Spelling.{number, spelling, IsInstr, names_all, opcode_at, opcode, instr};
ghost use Rattle.ob_instr.specs.SpellingLaws.{instr_exact};

use crate::opcode::{OPCODES, Opcode, operands_of};
use ob_format::{Fault, Wire, i32_at, put_bytes};
use std::alloc::{AllocError, Global};

/// An instruction: its operation, and the operands that the operation names. An operand that it does
/// not name is 0.
#[derive(Clone, Copy, PartialEq, Eq)]
pub struct Instr {
    pub op: Opcode,
    pub a: i32,
    pub b: i32,
}

fn number_of(op: Opcode) -> u8
    ensures { result ≡ number op }
{
    op as u8
}

fn opcode_of(byte: u8) -> Option<Opcode>
    ensures { result ≡ opcode_at byte }
{
    if byte < 1 {
        return None;
    }
    if byte > 71 {
        return None;
    }
    Some(OPCODES[byte as usize - 1])
}

fn names_all_of(i: Instr) -> bool
    ensures { result ≡ names_all i }
{
    let named = operands_of(i.op);
    (named >= 1 || i.a == 0) && (named >= 2 || i.b == 0)
}

#[tactic(auto, unfolding(ob_format::specs::Format::byte, ob_format::specs::Format::byte_at, ob_format::specs::Format::parsed_at, ob_format::specs::Format::such_that_at, ob_format::specs::Format::made_at, ob_format::specs::Format::pair_at, crate::specs::Spelling::opcode, crate::specs::Spelling::instr))]
fn instr_at(bytes: &[u8]) -> Option<(Instr, &[u8])>
    ensures { Finds (λ x. (x.0, x.1.now)) result (instr.take bytes.now) }
{
    match bytes {
        [] => None,
        [number, rest @ ..] => {
            let op = opcode_of(*number)?;
            let (a, rest) = i32_at(rest)?;
            let (b, rest) = i32_at(rest)?;
            let i = Instr { op, a, b };
            if names_all_of(i) {
                Some((i, rest))
            } else {
                None
            }
        }
    }
}

#[tactic(auto, unfolding(ob_format::specs::Format::whole))]
fn instr_in(bytes: &[u8]) -> Option<Instr>
    ensures { result ≡ whole instr bytes.now }
{
    let (i, rest) = instr_at(bytes)?;
    if !rest.is_empty() {
        return None;
    }
    Some(i)
}

/// The instruction that nine bytes spell: its number, and its operands in four bytes each, the high
/// byte first. `None` exactly where the bytes are no instruction's spelling: where there is no operation
/// of that number, or an operand that it does not name is not 0. Takes no memory.
pub fn take_instr(bytes: &[u8; 9]) -> Option<Instr>
    ensures found { IfSome result (λ i. IsInstr i × (bytes.now ≡ spelling i)) }
    ensures none { IfNone result ((i : Instr) → IsInstr i → bytes.now ≡ spelling i → ⊥) }
    ensures again { (i : Instr) → IsInstr i → bytes.now ≡ spelling i → result ≡ Some i }
{
    instr_in(bytes)
}

/// The nine bytes of an instruction. Takes no memory.
pub fn put_instr(i: Instr) -> [u8; 9]
    ensures { result ≡ spelling i }
{
    let [a0, a1, a2, a3] = i.a.to_be_bytes();
    let [b0, b1, b2, b3] = i.b.to_be_bytes();
    [number_of(i.op), a0, a1, a2, a3, b0, b1, b2, b3]
}

impl Wire for Instr {
    ghost form = { instr };

    fn read(_alloc: Global, bytes: &[u8]) -> Result<(Instr, &[u8]), Fault> {
        match instr_at(bytes) {
            Some(found) => Ok(found),
            None => Err(Fault::Damaged),
        }
    }

    #[tactic(auto, unfolding(crate::specs::Spelling::instr, crate::specs::Spelling::opcode, ob_format::specs::Format::byte, ob_format::specs::Format::int, ob_format::specs::Format::word32))]
    fn write(&self, out: &mut Vec<u8>) -> Result<(), AllocError> {
        put_bytes(out, &put_instr(*self))
    }

    ghost exact = { instr_exact };
}
