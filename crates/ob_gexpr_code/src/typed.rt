//! Instructions that name record types.

ghost use Rattle.std.specs.Prelude.{◌≡◌, ◌∷◌, [], ◌<◌, ◌^◌, Some, OnOk};
ghost use Rattle.ob_scheme.specs.Lines.{Number, count, none, line_of, placed_two};
ghost use Rattle.ob_scheme.specs.Context.{Context, type_operand};
ghost use Rattle.ob_scheme.specs.Coded.{Coded, appended};

use crate::code::Code;
use crate::fault::CodeFault;
use crate::scope::Scope;
use ob_instr::Opcode;
use ob_tree::{Pos, QName};

/// An instruction that names a record type, and has another operand behind it.
pub fn put_typed_and<S: Scope>(
    code: &mut Code,
    scope: &S,
    op: Opcode,
    name: &QName,
    b: i32,
    at: Option<Pos>,
) -> Result<(), CodeFault>
    ensures { OnOk result (code.new ≡ appended code.old (line_of op (type_operand (S.context scope.now) name.now) (Number b) at ∷ [])) }
{
    if scope.is_own(name.module.as_bytes()) {
        code.put(op, scope.type_index(&name.object), b, at)
    } else {
        code.put_type(op, scope.own_types(), name, b, at)
    }
}

/// An instruction that names a record type.
pub fn put_typed<S: Scope>(
    code: &mut Code,
    scope: &S,
    op: Opcode,
    name: &QName,
    at: Option<Pos>,
) -> Result<(), CodeFault>
    ensures { OnOk result (code.new ≡ appended code.old (line_of op (type_operand (S.context scope.now) name.now) none at ∷ [])) }
{
    put_typed_and(code, scope, op, name, 0, at)
}

/// An instruction that names a record type behind a count, with its position.
pub fn put_typed_behind<S: Scope>(
    code: &mut Code,
    scope: &S,
    op: Opcode,
    a: u32,
    name: &QName,
    at: Pos,
) -> Result<(), CodeFault>
    requires { a < 2 ^ 31 }
    ensures { OnOk result (code.new ≡ appended code.old (placed_two op (count a) (type_operand (S.context scope.now) name.now) at ∷ [])) }
{
    if scope.is_own(name.module.as_bytes()) {
        code.put(op, a as i32, scope.type_index(&name.object), Some(at))
    } else {
        code.put_type_behind(op, a as i32, scope.own_types(), name, at)
    }
}
