//! Code of designators and expressions.

ghost use Rattle.std.specs.Prelude.{◌≡◌, ◌≤◌, ◌++◌, ◌∷◌, [], length, pos, ◌+◌, ◌<◌, OnOk, IfOk, IfSome};
ghost use Rattle.std.specs.Option.{option_map, option_copied};
ghost use Rattle.std.specs.List.{All};
ghost use Rattle.ob_types.specs.declared.typed.Designator.{size-Designator};
ghost use Rattle.ob_types.specs.declared.typed.TypedExpr.{size-TypedExpr};
ghost use Rattle.ob_types.specs.TypedView.{designator_view, expr_view, actual_view, actuals_view};
ghost use Rattle.ob_scheme.specs.Lines.{plain, none, line_of, count};
ghost use Rattle.ob_scheme.specs.Context.{Context, words, type_operand};
ghost use Rattle.ob_scheme.specs.Coded.{Coded, appended, place_in};
ghost use Rattle.ob_scheme.specs.Expressions.{wanted, desig_code, expr_code, actuals_code};
ghost use Rattle.ob_gexpr.specs.Chains.{left_of, with_selector, with_operator, outward};

use crate::calls::{put_call, put_held_call};
use crate::constants::put_constant;
use crate::pieces::{put_binary, put_unary};
use crate::places::{put_field, put_from_pointer, put_index, put_variable};
use crate::relations::put_relation;
use crate::types::{put_from_guard, put_procedure_value};
use ob_gexpr_code::{Code, CodeFault, Scope, put_count, put_typed, want_for};
use ob_instr::Opcode;
use ob_scheme::{Want, want_for_guard, want_for_index};
use ob_types::{Actual, Connective, Designator, TypedExpr};
use std::alloc::{AllocError, Global};

// The designators from a whole one inward to its variable, each with how it is wanted.
#[tactic(auto)]
fn selectors_of<'a>(
    alloc: Global,
    want: Want,
    d: &'a Designator,
) -> Result<Vec<(Want, &'a Designator)>, AllocError>
    ensures whole { IfOk result (λ v. (c : Context) (k : Coded) → outward (λ p. with_selector c p.0 (designator_view p.1.now)) v.items k ≡ appended k (desig_code c want (designator_view d.now) (place_in k))) }
    ensures sizes { IfOk result (λ v. All (λ p. size-Designator p.1.now ≤ size-Designator d.now) v.items) }
{
    let mut links = Vec::new(alloc);
    let mut rest = d;
    let mut wanted = want;
    'links: loop {
        links.push((wanted, rest))?;
        match rest {
            Designator::Variable { .. } => return Ok(links),
            Designator::Field { inner, .. } => {
                wanted = Want::Place;
                rest = inner.get();
            }
            Designator::Index { inner, length, .. } => {
                wanted = want_for_index(*length);
                rest = inner.get();
            }
            Designator::Deref { inner, .. } => {
                wanted = Want::Value;
                rest = inner.get();
            }
            Designator::Guard { inner, guarded, .. } => {
                wanted = want_for_guard(*guarded, wanted);
                rest = inner.get();
            }
        }
    }
}

// The left operand of an operator that may stand in a chain.
#[tactic(auto, using(ob_types::proofs::TypedViews::view_constant, ob_types::proofs::TypedViews::view_value_of, ob_types::proofs::TypedViews::view_procedure_value, ob_types::proofs::TypedViews::view_monadic, ob_types::proofs::TypedViews::view_dyadic, ob_types::proofs::TypedViews::view_logical, ob_types::proofs::TypedViews::view_compare_texts, ob_types::proofs::TypedViews::view_is_pointer, ob_types::proofs::TypedViews::view_is_record, ob_types::proofs::TypedViews::view_length, ob_types::proofs::TypedViews::view_call, ob_types::proofs::TypedViews::view_call_variable))]
fn left_of(e: &TypedExpr) -> Option<&TypedExpr>
    ensures is { option_map expr_view (option_copied result) ≡ left_of (expr_view e.now) }
    ensures smaller { IfSome result (λ x. size-TypedExpr x.now < size-TypedExpr e.now) }
{
    match e {
        TypedExpr::Binary { left, .. } => Some(left.get()),
        TypedExpr::Logical { left, .. } => Some(left.get()),
        TypedExpr::Constant(_)
        | TypedExpr::Designator(_)
        | TypedExpr::Procedure { .. }
        | TypedExpr::Unary { .. }
        | TypedExpr::CompareTexts { .. }
        | TypedExpr::IsPointer { .. }
        | TypedExpr::IsRecord { .. }
        | TypedExpr::Length(_)
        | TypedExpr::Call { .. }
        | TypedExpr::CallVariable { .. } => None,
    }
}

// The expressions from a whole one inward to its first operand, each with how it is wanted.
fn operators_of<'a>(
    alloc: Global,
    want: Want,
    e: &'a TypedExpr,
) -> Result<Vec<(Want, &'a TypedExpr)>, AllocError>
    ensures whole { IfOk result (λ v. (c : Context) (k : Coded) → outward (λ p. with_operator c p.0 (expr_view p.1.now)) v.items k ≡ appended k (expr_code c want (expr_view e.now) (place_in k))) }
    ensures sizes { IfOk result (λ v. All (λ p. size-TypedExpr p.1.now ≤ size-TypedExpr e.now) v.items) }
{
    let mut links = Vec::new(alloc);
    let mut rest = e;
    let mut wanted = want;
    'links: while let Some(left) = left_of(rest) {
        links.push((wanted, rest))?;
        wanted = Want::Value;
        rest = left;
    }
    links.push((wanted, rest))?;
    Ok(links)
}

#[cycle(put_expr)]
pub fn put_designator<S: Scope>(
    code: &mut Code,
    scope: &S,
    want: Want,
    d: &Designator,
) -> Result<(), CodeFault>
    ensures { OnOk result (code.new ≡ appended code.old (desig_code (S.context scope.now) want (designator_view d.now) (place_in code.old))) }
{
    if let Designator::Variable { variable, of } = d {
        return put_variable(code, scope, want, variable, of);
    }
    let mut links = selectors_of(code.allocator(), want, d)?;
    'links: while let Some((wanted, link)) = links.pop() {
        put_selector(code, scope, wanted, link)?;
    }
    Ok(())
}

// A variable; or a selector alone, behind the code of what it selects from.
#[cycle(put_expr)]
#[tactic(auto, using(ob_scheme::proofs::Appends::put_two, ob_types::proofs::TypedViews::view_variable, ob_types::proofs::TypedViews::view_field, ob_types::proofs::TypedViews::view_index, ob_types::proofs::TypedViews::view_deref, ob_types::proofs::TypedViews::view_guard))]
fn put_selector<S: Scope>(
    code: &mut Code,
    scope: &S,
    want: Want,
    d: &Designator,
) -> Result<(), CodeFault>
    ensures { OnOk result (code.new ≡ with_selector (S.context scope.now) want (designator_view d.now) code.old) }
{
    match d {
        Designator::Variable { variable, of } => put_variable(code, scope, want, variable, of),
        Designator::Field {
            owner,
            name,
            of,
            ..
        } => put_field(code, scope, owner, &name.name(), want, of),
        Designator::Index {
            length,
            index,
            pos,
            of,
            ..
        } => {
            put_expr(code, scope, Want::Value, index.get())?;
            put_index(code, scope, *length, want, of, *pos)
        }
        Designator::Deref { pos, of, .. } => put_from_pointer(code, scope, want, of, *pos),
        Designator::Guard {
            guarded,
            target,
            pos,
            of,
            ..
        } => put_from_guard(code, scope, *guarded, target, want, of, *pos),
    }
}

#[cycle(put_expr)]
pub fn put_expr<S: Scope>(
    code: &mut Code,
    scope: &S,
    want: Want,
    e: &TypedExpr,
) -> Result<(), CodeFault>
    ensures { OnOk result (code.new ≡ appended code.old (expr_code (S.context scope.now) want (expr_view e.now) (place_in code.old))) }
{
    if left_of(e).is_none() {
        return put_operator(code, scope, want, e);
    }
    let mut links = operators_of(code.allocator(), want, e)?;
    'links: while let Some((wanted, link)) = links.pop() {
        put_operator(code, scope, wanted, link)?;
    }
    Ok(())
}

// An operator and its right operand, behind the code of its left one; or any other expression.
#[cycle(put_expr)]
#[tactic(auto, using(ob_scheme::proofs::Appends::put_two, ob_scheme::proofs::Puts::two_exprs_and, ob_scheme::proofs::Puts::place_and_actuals, ob_types::proofs::TypedViews::view_constant, ob_types::proofs::TypedViews::view_value_of, ob_types::proofs::TypedViews::view_procedure_value, ob_types::proofs::TypedViews::view_monadic, ob_types::proofs::TypedViews::view_dyadic, ob_types::proofs::TypedViews::view_compare_texts, ob_types::proofs::TypedViews::view_is_pointer, ob_types::proofs::TypedViews::view_is_record, ob_types::proofs::TypedViews::view_length, ob_types::proofs::TypedViews::view_call, ob_types::proofs::TypedViews::view_call_variable))]
fn put_operator<S: Scope>(
    code: &mut Code,
    scope: &S,
    want: Want,
    e: &TypedExpr,
) -> Result<(), CodeFault>
    ensures { OnOk result (code.new ≡ with_operator (S.context scope.now) want (expr_view e.now) code.old) }
{
    match e {
        TypedExpr::Constant(value) => put_constant(code, want, value),
        TypedExpr::Designator(d) => put_designator(code, scope, want, d),
        TypedExpr::Procedure { name, .. } => put_procedure_value(code, scope, name),
        TypedExpr::Unary { op, operand, pos } => {
            put_expr(code, scope, Want::Value, operand.get())?;
            put_unary(code, *op, *pos)
        }
        TypedExpr::Binary { op, right, pos, .. } => {
            put_expr(code, scope, Want::Value, right.get())?;
            put_binary(code, *op, *pos)
        }
        TypedExpr::Logical {
            connective,
            right,
            ..
        } => match connective {
            Connective::And => {
                let test = code.place();
                put_count(code, Opcode::JumpF, 0)?;
                put_expr(code, scope, Want::Value, right.get())?;
                put_ahead(code, Opcode::Jump, 2)?;
                code.aim(test, Opcode::JumpF)?;
                put_count(code, Opcode::Int, 0)
            }
            Connective::Or => {
                put_ahead(code, Opcode::JumpF, 3)?;
                put_count(code, Opcode::Int, 1)?;
                let over = code.place();
                put_count(code, Opcode::Jump, 0)?;
                put_expr(code, scope, Want::Value, right.get())?;
                code.aim(over, Opcode::Jump)
            }
        },
        TypedExpr::CompareTexts {
            comparison,
            left,
            right,
            pos,
        } => {
            put_expr(code, scope, Want::PlaceAndLength, left.get())?;
            put_expr(code, scope, Want::PlaceAndLength, right.get())?;
            put_relation(code, *comparison, *pos)
        }
        TypedExpr::IsPointer { operand, target } => {
            put_expr(code, scope, Want::Value, operand.get())?;
            put_typed(code, scope, Opcode::IsP, target, None)
        }
        TypedExpr::IsRecord { inner, target } => {
            put_designator(code, scope, Want::Tag, inner)?;
            put_typed(code, scope, Opcode::IsR, target, None)
        }
        TypedExpr::Length(d) => put_designator(code, scope, Want::Length, d),
        TypedExpr::Call {
            callee,
            actuals,
            pos,
            ..
        } => {
            put_actuals(code, scope, actuals.as_slice())?;
            put_call(code, scope, callee, actuals.as_slice(), *pos)
        }
        TypedExpr::CallVariable {
            inner,
            actuals,
            pos,
            ..
        } => {
            put_designator(code, scope, Want::Value, inner)?;
            put_actuals(code, scope, actuals.as_slice())?;
            put_held_call(code, actuals.as_slice(), *pos)
        }
    }
}

#[cycle(put_expr)]
fn put_actual<S: Scope>(code: &mut Code, scope: &S, actual: &Actual) -> Result<(), CodeFault>
    ensures { OnOk result (code.new ≡ appended code.old (expr_code (S.context scope.now) (wanted (words (S.context scope.now)) actual.now.passing actual.now.formal) (expr_view actual.now.value) (place_in code.old))) }
{
    let want = want_for(scope, actual.passing, &actual.formal)?;
    put_expr(code, scope, want, &actual.value)
}

#[cycle(put_expr)]
fn put_actuals<S: Scope>(code: &mut Code, scope: &S, actuals: &[Actual]) -> Result<(), CodeFault>
    ensures { OnOk result (code.new ≡ appended code.old (actuals_code (S.context scope.now) (actuals_view actuals.now) (place_in code.old))) }
{
    'actuals: for actual in actuals {
        put_actual(code, scope, actual)?;
    }
    Ok(())
}

// A jump to so many instructions further.
fn put_ahead(code: &mut Code, op: Opcode, by: u32) -> Result<(), CodeFault>
    requires { by < 10 }
    ensures { OnOk result (code.new ≡ appended code.old (plain op (count (length code.old.instrs + by)) ∷ [])) }
{
    let place = code.place();
    if place >= 1 << 30 {
        return Err(CodeFault::Beyond);
    }
    put_count(code, op, place as u32 + by)
}
