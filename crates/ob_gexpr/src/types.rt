//! Code that tests and guards types, and that names procedures.

ghost use Rattle.std.specs.Prelude.{◌≡◌, ◌∷◌, [], Some, None, OnOk, IfOk};
ghost use Rattle.ob_scheme.specs.Lines.{plain};
ghost use Rattle.ob_scheme.specs.Context.{Context, record_operand};
ghost use Rattle.ob_scheme.specs.Coded.{Coded, appended};
ghost use Rattle.ob_scheme.specs.Expressions.{guard_line, from_guard, procedure_line, declared_line};

use crate::pieces::put_behind_guard;
use crate::places::put_from_place;
use ob_gexpr_code::{Code, CodeFault, Scope, put_typed};
use ob_instr::Opcode;
use ob_scheme::Want;
use ob_tree::{Name, Pos, QName};
use ob_types::{Guarded, TypeRef};

/// The tag of the record type that a type is.
pub fn put_tag<S: Scope>(code: &mut Code, scope: &S, of: &TypeRef) -> Result<(), CodeFault>
    ensures { OnOk result (code.new ≡ appended code.old (plain Opcode.Tag (record_operand (S.context scope.now) of.now) ∷ [])) }
{
    match scope.record_of(of) {
        None => code.put(Opcode::Tag, 0, 0, None),
        Some(name) => put_typed(code, scope, Opcode::Tag, name, None),
    }
}

/// A guard.
pub fn put_guard<S: Scope>(
    code: &mut Code,
    scope: &S,
    guarded: Guarded,
    target: &QName,
    at: Pos,
) -> Result<(), CodeFault>
    ensures { OnOk result (code.new ≡ appended code.old (guard_line (S.context scope.now) guarded target.now at ∷ [])) }
{
    match guarded {
        Guarded::Pointer => put_typed(code, scope, Opcode::GuardAt, target, Some(at)),
        Guarded::Record => put_typed(code, scope, Opcode::GuardR, target, Some(at)),
    }
}

// The name of a procedure of another module, which is an identifier.
fn name_of(name: &QName) -> Result<Name, CodeFault>
    ensures { IfOk result (λ n. n ≡ name.now.object) }
{
    if name.object.as_bytes().len() > 64 {
        return Err(CodeFault::Beyond);
    }
    Ok(Name::new(name.object.as_bytes()))
}

/// A procedure as a value.
pub fn put_procedure_value<S: Scope>(
    code: &mut Code,
    scope: &S,
    name: &QName,
) -> Result<(), CodeFault>
    ensures { OnOk result (code.new ≡ appended code.old (procedure_line (S.context scope.now) name.now ∷ [])) }
{
    if scope.is_own(name.module.as_bytes()) {
        code.put(Opcode::Proc, scope.procedure_index(&name.object), 0, None)
    } else {
        let object = name_of(name)?;
        code.put_procedure(Opcode::ProcX, &name.module.name(), &object, None)
    }
}

/// A call of a declared procedure.
pub fn put_declared<S: Scope>(
    code: &mut Code,
    scope: &S,
    name: &QName,
    at: Pos,
) -> Result<(), CodeFault>
    ensures { OnOk result (code.new ≡ appended code.old (declared_line (S.context scope.now) name.now at ∷ [])) }
{
    if scope.is_own(name.module.as_bytes()) {
        code.put(
            Opcode::Call,
            scope.procedure_index(&name.object),
            0,
            Some(at),
        )
    } else {
        let object = name_of(name)?;
        code.put_procedure(Opcode::CallX, &name.module.name(), &object, Some(at))
    }
}

fn put_after_guard<S: Scope>(
    code: &mut Code,
    scope: &S,
    guarded: Guarded,
    want: Want,
    of: &TypeRef,
) -> Result<(), CodeFault>
    ensures { OnOk result (code.new ≡ appended code.old (from_guard (S.context scope.now) guarded want of.now)) }
{
    match guarded {
        Guarded::Pointer => put_from_place(code, scope, want, of),
        Guarded::Record => put_behind_guard(code, want),
    }
}

/// A guard, and what is wanted behind it.
#[tactic(auto, using(ob_scheme::proofs::Appends::put_more))]
pub fn put_from_guard<S: Scope>(
    code: &mut Code,
    scope: &S,
    guarded: Guarded,
    target: &QName,
    want: Want,
    of: &TypeRef,
    at: Pos,
) -> Result<(), CodeFault>
    ensures { OnOk result (code.new ≡ appended code.old (guard_line (S.context scope.now) guarded target.now at ∷ from_guard (S.context scope.now) guarded want of.now)) }
{
    put_guard(code, scope, guarded, target, at)?;
    put_after_guard(code, scope, guarded, want, of)
}
