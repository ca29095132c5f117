//! Single lines of code, put by what they do.

ghost use Rattle.std.specs.Prelude.{◌≡◌, ◌∷◌, [], ◌<◌, ◌^◌, pos, OnOk};
ghost use Rattle.ob_scheme.specs.Lines.{Number, plain, placed, bare, bare_at, count};
ghost use Rattle.ob_scheme.specs.Coded.{Coded, appended};
ghost use Rattle.ob_scheme.specs.Operations.{bytes_of};

use crate::code::Code;
use crate::fault::CodeFault;
use ob_instr::Opcode;
use ob_tree::Pos;
use ob_types::Width;

/// The bytes of an integer type.
pub fn bytes_of(width: Width) -> i32
    ensures { result ≡ pos (bytes_of width) }
{
    match width {
        Width::ShortInt => 1,
        Width::Integer => 2,
        Width::LongInt => 4,
    }
}

/// An instruction without operands, which cannot trap and spends no turn.
pub fn put_bare(code: &mut Code, op: Opcode) -> Result<(), CodeFault>
    ensures { OnOk result (code.new ≡ appended code.old (bare op ∷ [])) }
{
    code.put(op, 0, 0, None)
}

/// An instruction without operands, with its position.
pub fn put_bare_at(code: &mut Code, op: Opcode, at: Pos) -> Result<(), CodeFault>
    ensures { OnOk result (code.new ≡ appended code.old (bare_at op at ∷ [])) }
{
    code.put(op, 0, 0, Some(at))
}

/// An instruction with one operand, which cannot trap and spends no turn.
pub fn put_plain(code: &mut Code, op: Opcode, a: i32) -> Result<(), CodeFault>
    ensures { OnOk result (code.new ≡ appended code.old (plain op (Number a) ∷ [])) }
{
    code.put(op, a, 0, None)
}

/// An instruction with a count as its operand, which cannot trap and spends no turn.
pub fn put_count(code: &mut Code, op: Opcode, a: u32) -> Result<(), CodeFault>
    requires { a < 2 ^ 31 }
    ensures { OnOk result (code.new ≡ appended code.old (plain op (count a) ∷ [])) }
{
    put_plain(code, op, a as i32)
}

/// An instruction with one operand, with its position.
pub fn put_placed(code: &mut Code, op: Opcode, a: i32, at: Pos) -> Result<(), CodeFault>
    ensures { OnOk result (code.new ≡ appended code.old (placed op (Number a) at ∷ [])) }
{
    code.put(op, a, 0, Some(at))
}

/// A jump to an index above its own.
pub fn put_jump(code: &mut Code, op: Opcode, target: usize) -> Result<(), CodeFault>
    ensures { OnOk result (code.new ≡ appended code.old (plain op (count target) ∷ [])) }
{
    if target >= 1 << 31 {
        return Err(CodeFault::Beyond);
    }
    code.put(op, target as i32, 0, None)
}

/// A jump back, with the position where it spends a turn.
pub fn put_jump_back(code: &mut Code, op: Opcode, target: usize, at: Pos) -> Result<(), CodeFault>
    ensures { OnOk result (code.new ≡ appended code.old (placed op (count target) at ∷ [])) }
{
    if target >= 1 << 31 {
        return Err(CodeFault::Beyond);
    }
    code.put(op, target as i32, 0, Some(at))
}
