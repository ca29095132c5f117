//! Code of assignments and of what else has no jumps.

ghost use Rattle.std.specs.Prelude.{◌≡◌, ◌∷◌, [], ◌<◌, ◌^◌, OnOk, IfOk};
ghost use Rattle.std.specs.Option.{option_map};
ghost use Rattle.ob_types.specs.declared.types.TypeRef.TheVariants as ref;
ghost use Rattle.ob_types.specs.TypedKinds.{variable_type};
ghost use Rattle.ob_types.specs.TypedSyntax.{Assign, Updated, Copy as Copied, New, NewOpenArray, Assert, Halt, Return};
ghost use Rattle.ob_types.specs.TypedView.{designator_view, expr_view};
ghost use Rattle.ob_scheme.specs.Lines.{plain, placed, count};
ghost use Rattle.ob_scheme.specs.Operations.{update_line};
ghost use Rattle.ob_scheme.specs.Context.{Context, words};
ghost use Rattle.ob_scheme.specs.Coded.{Coded, appended, place_in};
ghost use Rattle.ob_scheme.specs.Statements.{text_words_of, text_words, copy_record, assign_line, new_line};
ghost use Rattle.ob_gstmt.specs.Straight.{straight_code};

use ob_gexpr::{put_designator, put_expr};
use ob_gexpr_code::{
    Code, CodeFault, Scope, bytes_of, put_bare, put_bare_at, put_count, put_placed, put_typed,
    put_typed_behind,
};
use ob_instr::Opcode;
use ob_scheme::{Want, has_tag, want_for_source, want_for_target};
use ob_trap::Trap;
use ob_tree::{Pos, QName};
use ob_types::{Assigned, Designator, Made, TypeRef, TypedExpr, Update, Value};

// The words of a text, its 0X among them; 0 of any other value.
fn text_words_of(value: &Value) -> Result<u32, CodeFault>
    ensures is { IfOk result (λ n. n ≡ text_words_of value.now) }
    ensures within { IfOk result (λ n. n < 2 ^ 31) }
{
    match value {
        Value::Str(text) => {
            let length = text.len();
            if length >= 1 << 30 {
                return Err(CodeFault::Beyond);
            }
            Ok(length as u32 + 1)
        }
        Value::Bool(_) | Value::Char(_) | Value::Int(_) | Value::Set(_) | Value::Nil => Ok(0),
    }
}

#[tactic(auto, using(ob_types::proofs::TypedViews::view_constant, ob_types::proofs::TypedViews::view_value_of, ob_types::proofs::TypedViews::view_procedure_value, ob_types::proofs::TypedViews::view_monadic, ob_types::proofs::TypedViews::view_dyadic, ob_types::proofs::TypedViews::view_logical, ob_types::proofs::TypedViews::view_compare_texts, ob_types::proofs::TypedViews::view_is_pointer, ob_types::proofs::TypedViews::view_is_record, ob_types::proofs::TypedViews::view_length, ob_types::proofs::TypedViews::view_call, ob_types::proofs::TypedViews::view_call_variable))]
fn text_words(value: &TypedExpr) -> Result<u32, CodeFault>
    ensures is { IfOk result (λ n. n ≡ text_words (expr_view value.now)) }
    ensures within { IfOk result (λ n. n < 2 ^ 31) }
{
    match value {
        TypedExpr::Constant(constant) => text_words_of(constant),
        TypedExpr::Designator(_) => Ok(0),
        TypedExpr::Procedure { .. } => Ok(0),
        TypedExpr::Unary { .. } => Ok(0),
        TypedExpr::Binary { .. } => Ok(0),
        TypedExpr::Logical { .. } => Ok(0),
        TypedExpr::CompareTexts { .. } => Ok(0),
        TypedExpr::IsPointer { .. } => Ok(0),
        TypedExpr::IsRecord { .. } => Ok(0),
        TypedExpr::Length(_) => Ok(0),
        TypedExpr::Call { .. } => Ok(0),
        TypedExpr::CallVariable { .. } => Ok(0),
    }
}

#[tactic(auto, using(ob_types::proofs::TypedViews::view_variable, ob_types::proofs::TypedViews::view_field, ob_types::proofs::TypedViews::view_index, ob_types::proofs::TypedViews::view_deref, ob_types::proofs::TypedViews::view_guard))]
fn type_of(d: &Designator) -> &TypeRef
    ensures { result.now ≡ variable_type (designator_view d.now) }
{
    match d {
        Designator::Variable { of, .. } => of,
        Designator::Field { of, .. } => of,
        Designator::Index { of, .. } => of,
        Designator::Deref { of, .. } => of,
        Designator::Guard { of, .. } => of,
    }
}

fn type_named(name: &QName) -> Result<TypeRef, CodeFault>
    ensures { IfOk result (λ t. t ≡ ref.Named name.now) }
{
    let Ok(name) = name.clone() else {
        return Err(CodeFault::Memory);
    };
    Ok(TypeRef::Named(name))
}

// The words of a record type.
fn record_words<S: Scope>(scope: &S, name: &QName) -> Result<u32, CodeFault>
    ensures is { IfOk result (λ n. n ≡ words (S.context scope.now) (ref.Named name.now)) }
    ensures within { IfOk result (λ n. n < 2 ^ 31) }
{
    let of = type_named(name)?;
    scope.words(&of)
}

// The copy of a record, with a test of the target's tag or without.
fn put_copy_record<S: Scope>(
    code: &mut Code,
    scope: &S,
    tagged: bool,
    name: &QName,
    at: Pos,
) -> Result<(), CodeFault>
    ensures { OnOk result (code.new ≡ appended code.old (copy_record (S.context scope.now) tagged name.now at ∷ [])) }
{
    let words = record_words(scope, name)?;
    if tagged {
        put_typed_behind(code, scope, Opcode::CopyRec, words, name, at)
    } else {
        put_count(code, Opcode::Copy, words)
    }
}

fn put_copy_array<S: Scope>(code: &mut Code, scope: &S, of: &TypeRef) -> Result<(), CodeFault>
    ensures { OnOk result (code.new ≡ appended code.old (plain Opcode.Copy (count (words (S.context scope.now) of.now)) ∷ [])) }
{
    let words = scope.words(of)?;
    put_count(code, Opcode::Copy, words)
}

fn put_copy_text(code: &mut Code, value: &TypedExpr) -> Result<(), CodeFault>
    ensures { OnOk result (code.new ≡ appended code.old (plain Opcode.Copy (count (text_words (expr_view value.now))) ∷ [])) }
{
    let words = text_words(value)?;
    put_count(code, Opcode::Copy, words)
}

fn put_assign_line<S: Scope>(
    code: &mut Code,
    scope: &S,
    assigned: &Assigned,
    target: &Designator,
    value: &TypedExpr,
    at: Pos,
) -> Result<(), CodeFault>
    ensures { OnOk result (code.new ≡ appended code.old (assign_line (S.context scope.now) assigned.now (designator_view target.now) (expr_view value.now) at ∷ [])) }
{
    match assigned {
        Assigned::Scalar => put_bare(code, Opcode::Store),
        Assigned::Text => put_copy_text(code, value),
        Assigned::Array => put_copy_array(code, scope, type_of(target)),
        Assigned::Record(name) => put_copy_record(code, scope, has_tag(target), name, at),
    }
}

/// An assignment.
#[tactic(auto, using(ob_scheme::proofs::Puts::place_and_expr))]
pub fn put_assignment<S: Scope>(
    code: &mut Code,
    scope: &S,
    target: &Designator,
    assigned: &Assigned,
    value: &TypedExpr,
    at: Pos,
) -> Result<(), CodeFault>
    ensures { OnOk result (code.new ≡ appended code.old (straight_code (S.context scope.now) (Assign (designator_view target.now) assigned.now (expr_view value.now) at) (place_in code.old))) }
{
    put_designator(code, scope, want_for_target(assigned, target), target)?;
    put_expr(code, scope, want_for_source(assigned), value)?;
    put_assign_line(code, scope, assigned, target, value, at)
}

fn put_update_line(code: &mut Code, op: Update, at: Pos) -> Result<(), CodeFault>
    ensures { OnOk result (code.new ≡ appended code.old (update_line op at ∷ [])) }
{
    match op {
        Update::Inc(width) => put_placed(code, Opcode::Inc, bytes_of(width), at),
        Update::Dec(width) => put_placed(code, Opcode::Dec, bytes_of(width), at),
        Update::Incl => put_bare_at(code, Opcode::Incl, at),
        Update::Excl => put_bare_at(code, Opcode::Excl, at),
    }
}

/// INC, DEC, INCL or EXCL.
#[tactic(auto, using(ob_scheme::proofs::Puts::place_and_expr))]
pub fn put_update<S: Scope>(
    code: &mut Code,
    scope: &S,
    op: Update,
    target: &Designator,
    operand: &TypedExpr,
    at: Pos,
) -> Result<(), CodeFault>
    ensures { OnOk result (code.new ≡ appended code.old (straight_code (S.context scope.now) (Updated op (designator_view target.now) (expr_view operand.now) at) (place_in code.old))) }
{
    put_designator(code, scope, Want::Place, target)?;
    put_expr(code, scope, Want::Value, operand)?;
    put_update_line(code, op, at)
}

/// COPY
#[tactic(auto, using(crate::proofs::StmtPuts::expr_and_place))]
pub fn put_copy<S: Scope>(
    code: &mut Code,
    scope: &S,
    source: &TypedExpr,
    target: &Designator,
    at: Pos,
) -> Result<(), CodeFault>
    ensures { OnOk result (code.new ≡ appended code.old (straight_code (S.context scope.now) (Copied (expr_view source.now) (designator_view target.now) at) (place_in code.old))) }
{
    put_expr(code, scope, Want::PlaceAndLength, source)?;
    put_designator(code, scope, Want::PlaceAndLength, target)?;
    put_bare_at(code, Opcode::StrCopy, at)
}

// An instruction with the words of a type, and its position.
fn put_words<S: Scope>(
    code: &mut Code,
    scope: &S,
    op: Opcode,
    of: &TypeRef,
    at: Pos,
) -> Result<(), CodeFault>
    ensures { OnOk result (code.new ≡ appended code.old (placed op (count (words (S.context scope.now) of.now)) at ∷ [])) }
{
    let words = scope.words(of)?;
    put_placed(code, op, words as i32, at)
}

fn put_new_line<S: Scope>(code: &mut Code, scope: &S, made: &Made, at: Pos) -> Result<(), CodeFault>
    ensures { OnOk result (code.new ≡ appended code.old (new_line (S.context scope.now) made.now at ∷ [])) }
{
    match made {
        Made::Record(name) => put_typed(code, scope, Opcode::NewR, name, Some(at)),
        Made::Array(of) => put_words(code, scope, Opcode::NewA, of, at),
    }
}

/// NEW of a record or of an array of a fixed length.
#[tactic(auto, using(ob_scheme::proofs::Appends::put_two))]
pub fn put_new<S: Scope>(
    code: &mut Code,
    scope: &S,
    target: &Designator,
    made: &Made,
    at: Pos,
) -> Result<(), CodeFault>
    ensures { OnOk result (code.new ≡ appended code.old (straight_code (S.context scope.now) (New (designator_view target.now) made.now at) (place_in code.old))) }
{
    put_designator(code, scope, Want::Place, target)?;
    put_new_line(code, scope, made, at)
}

/// NEW of an open array.
#[tactic(auto, using(ob_scheme::proofs::Puts::place_and_expr))]
pub fn put_new_open<S: Scope>(
    code: &mut Code,
    scope: &S,
    target: &Designator,
    element: &TypeRef,
    length: &TypedExpr,
    at: Pos,
) -> Result<(), CodeFault>
    ensures { OnOk result (code.new ≡ appended code.old (straight_code (S.context scope.now) (NewOpenArray (designator_view target.now) element.now (expr_view length.now) at) (place_in code.old))) }
{
    put_designator(code, scope, Want::Place, target)?;
    put_expr(code, scope, Want::Value, length)?;
    put_words(code, scope, Opcode::NewO, element, at)
}

/// ASSERT
#[tactic(auto, using(ob_scheme::proofs::Appends::put_two))]
pub fn put_assert<S: Scope>(
    code: &mut Code,
    scope: &S,
    condition: &TypedExpr,
    number: &i32,
    at: Pos,
) -> Result<(), CodeFault>
    ensures { OnOk result (code.new ≡ appended code.old (straight_code (S.context scope.now) (Assert (expr_view condition.now) number.now at) (place_in code.old))) }
{
    put_expr(code, scope, Want::Value, condition)?;
    put_placed(code, Opcode::Assert, *number, at)
}

/// HALT
pub fn put_halt<S: Scope>(
    code: &mut Code,
    scope: &S,
    number: &i32,
    at: Pos,
) -> Result<(), CodeFault>
    ensures { OnOk result (code.new ≡ appended code.old (straight_code (S.context scope.now) (Halt number.now at) (place_in code.old))) }
{
    let _scope = scope;
    code.put(
        Opcode::Trap,
        i32::from(Trap::Halted.number()),
        *number,
        Some(at),
    )
}

/// RETURN
#[tactic(auto, using(ob_scheme::proofs::Appends::put_two))]
pub fn put_return<S: Scope>(
    code: &mut Code,
    scope: &S,
    value: &Option<TypedExpr>,
) -> Result<(), CodeFault>
    ensures { OnOk result (code.new ≡ appended code.old (straight_code (S.context scope.now) (Return (option_map expr_view value.now)) (place_in code.old))) }
{
    match value {
        None => put_bare(code, Opcode::Ret),
        Some(e) => {
            put_expr(code, scope, Want::Value, e)?;
            put_bare(code, Opcode::RetV)
        }
    }
}
