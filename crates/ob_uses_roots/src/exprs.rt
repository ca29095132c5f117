//! What a designator and an expression use.

ghost use Rattle.std.specs.Prelude.{◌≡◌, ◌<◌, ◌+◌, ◌∷◌, [], ◌++◌, OnOk};
ghost use Rattle.ob_types.specs.TypedView.{designator_view, expr_view, actuals_view};
ghost use Rattle.ob_layout.specs.Sizes.{size_of_designator, size_of_expr, size_of_actuals};
ghost use Rattle.ob_uses_roots.specs.Counts.{counts_of_designator, counts_of_expr, counts_of_actuals};
ghost use Rattle.ob_uses_roots.specs.Noted.{noted};
ghost use Rattle.ob_uses_roots.specs.Parts.{counts_of_part, counts_of_parts, size_of_part, size_of_parts};

use crate::calls::{note_call, note_held_call};
use crate::noted::Noted;
use crate::notes::{note_both, note_guard, note_named, note_shape, note_signature};
use ob_tree::QName;
use ob_types::{Actual, Callee, Designator, TypeRef, TypedExpr};
use std::alloc::{AllocError, Global};

// What of an expression or of a designator is still to count.
#[derive(Clone, Copy)]
enum Part<'a> {
    Place(&'a Designator),
    Value(&'a TypedExpr),
    Actuals(&'a [Actual]),
    // The type of a designator.
    Shape(&'a TypeRef),
    // The type of an element at an index.
    Element(&'a TypeRef),
    // The type of a designator with a guard, and the record type that the guard tests for.
    Guard(&'a TypeRef, &'a QName),
    // The record type that IS tests for.
    Target(&'a QName),
    // A call, beside its actual parameters.
    Call(&'a Callee, &'a [Actual], &'a Option<TypeRef>),
    // The call of a procedure variable, beside its designator and its actual parameters.
    HeldCall(&'a [Actual], &'a Option<TypeRef>),
}

// What is put last counts first.
fn put<'a>(parts: &mut Vec<Part<'a>>, part: Part<'a>) -> Result<(), AllocError>
    ensures { OnOk result (parts.new.items ≡ parts.old.items ++ part.entry ∷ []) }
{
    parts.push(part)?;
    Ok(())
}

// Takes a designator apart.
#[tactic(auto, using(crate::proofs::Parts::parts))]
fn take_place<'a>(
    found: &mut Noted,
    parts: &mut Vec<Part<'a>>,
    d: &'a Designator,
) -> Result<(), AllocError>
    ensures counts { OnOk result (noted found.new (counts_of_parts parts.new.items) ≡ noted found.old (counts_of_designator (designator_view d.now) ++ counts_of_parts parts.old.items)) }
    ensures size { OnOk result (size_of_parts parts.new.items < size_of_designator (designator_view d.now) + size_of_designator (designator_view d.now) + size_of_parts parts.old.items) }
{
    match d {
        Designator::Variable { of, .. } => note_shape(found, of),
        Designator::Field { inner, of, .. } => {
            put(parts, Part::Shape(of))?;
            put(parts, Part::Place(inner.get()))
        }
        Designator::Index {
            inner,
            index,
            of,
            ..
        } => {
            put(parts, Part::Element(of))?;
            put(parts, Part::Value(index.get()))?;
            put(parts, Part::Place(inner.get()))
        }
        Designator::Deref { inner, of, .. } => {
            put(parts, Part::Shape(of))?;
            put(parts, Part::Place(inner.get()))
        }
        Designator::Guard {
            inner,
            target,
            of,
            ..
        } => {
            put(parts, Part::Guard(of, target))?;
            put(parts, Part::Place(inner.get()))
        }
    }
}

// Takes an expression apart.
#[tactic(auto, using(crate::proofs::Parts::parts))]
fn take_value<'a>(
    found: &mut Noted,
    parts: &mut Vec<Part<'a>>,
    e: &'a TypedExpr,
) -> Result<(), AllocError>
    ensures counts { OnOk result (noted found.new (counts_of_parts parts.new.items) ≡ noted found.old (counts_of_expr (expr_view e.now) ++ counts_of_parts parts.old.items)) }
    ensures size { OnOk result (size_of_parts parts.new.items < size_of_expr (expr_view e.now) + size_of_expr (expr_view e.now) + size_of_parts parts.old.items) }
{
    match e {
        TypedExpr::Constant(_) => Ok(()),
        TypedExpr::Designator(d) => put(parts, Part::Place(d)),
        TypedExpr::Procedure { signature, .. } => note_signature(found, signature),
        TypedExpr::Unary { operand, .. } => put(parts, Part::Value(operand.get())),
        TypedExpr::Binary { left, right, .. } => {
            put(parts, Part::Value(right.get()))?;
            put(parts, Part::Value(left.get()))
        }
        TypedExpr::Logical { left, right, .. } => {
            put(parts, Part::Value(right.get()))?;
            put(parts, Part::Value(left.get()))
        }
        TypedExpr::CompareTexts { left, right, .. } => {
            put(parts, Part::Value(right.get()))?;
            put(parts, Part::Value(left.get()))
        }
        TypedExpr::IsPointer { operand, target } => {
            put(parts, Part::Target(target))?;
            put(parts, Part::Value(operand.get()))
        }
        TypedExpr::IsRecord { inner, target } => {
            put(parts, Part::Target(target))?;
            put(parts, Part::Place(inner))
        }
        TypedExpr::Length(d) => put(parts, Part::Place(d)),
        TypedExpr::Call {
            callee,
            actuals,
            result: of,
            ..
        } => {
            put(parts, Part::Call(callee, actuals.as_slice(), of))?;
            put(parts, Part::Actuals(actuals.as_slice()))
        }
        TypedExpr::CallVariable {
            inner,
            actuals,
            result: of,
            ..
        } => {
            put(parts, Part::HeldCall(actuals.as_slice(), of))?;
            put(parts, Part::Actuals(actuals.as_slice()))?;
            put(parts, Part::Place(inner))
        }
    }
}

// Takes the first of some actual parameters apart.
#[tactic(auto, using(crate::proofs::Parts::parts))]
fn take_actuals<'a>(parts: &mut Vec<Part<'a>>, actuals: &'a [Actual]) -> Result<(), AllocError>
    ensures counts { OnOk result (counts_of_parts parts.new.items ≡ counts_of_actuals (actuals_view actuals.now) ++ counts_of_parts parts.old.items) }
    ensures size { OnOk result (size_of_parts parts.new.items < size_of_actuals (actuals_view actuals.now) + size_of_actuals (actuals_view actuals.now) + size_of_parts parts.old.items) }
{
    match actuals {
        [] => Ok(()),
        [first, rest @ ..] => {
            put(parts, Part::Actuals(rest))?;
            put(parts, Part::Value(&first.value))
        }
    }
}

// Takes a part apart: what counts at once, and then the parts in it.
#[tactic(auto, using(crate::proofs::Parts::parts))]
fn take_apart<'a>(
    found: &mut Noted,
    parts: &mut Vec<Part<'a>>,
    part: Part<'a>,
) -> Result<(), AllocError>
    ensures counts { OnOk result (noted found.new (counts_of_parts parts.new.items) ≡ noted found.old (counts_of_part part.entry ++ counts_of_parts parts.old.items)) }
    ensures size { OnOk result (size_of_parts parts.new.items < size_of_part part.entry + size_of_parts parts.old.items) }
{
    match part {
        Part::Place(d) => take_place(found, parts, d),
        Part::Value(e) => take_value(found, parts, e),
        Part::Actuals(actuals) => take_actuals(parts, actuals),
        Part::Shape(of) => note_shape(found, of),
        Part::Element(of) => note_both(found, of),
        Part::Guard(of, target) => note_guard(found, of, target),
        Part::Target(target) => note_named(found, target),
        Part::Call(callee, actuals, of) => note_call(found, callee, actuals, of),
        Part::HeldCall(actuals, of) => note_held_call(found, actuals, of),
    }
}

// The parts wait in a list of their own, so a long chain of operators or of selectors takes no
// more of the stack than a short one.
#[tactic(auto, using(crate::proofs::Parting::noted_none))]
fn count_part(alloc: Global, found: &mut Noted, part: Part<'_>) -> Result<(), AllocError>
    ensures { OnOk result (found.new ≡ noted found.old (counts_of_part part.entry)) }
{
    let mut parts = Vec::new(alloc);
    take_apart(found, &mut parts, part)?;
    'parts: while let Some(next) = parts.pop() {
        take_apart(found, &mut parts, next)?;
    }
    Ok(())
}

/// The type of the designator and of each of its prefixes, and the layout of the element at each
/// index.
pub fn count_designator(alloc: Global, found: &mut Noted, d: &Designator) -> Result<(), AllocError>
    ensures { OnOk result (found.new ≡ noted found.old (counts_of_designator (designator_view d.now))) }
{
    count_part(alloc, found, Part::Place(d))
}

/// The designators of the expression, the types that it tests for, and the parameters and results
/// of the procedures that it calls or takes as values.
pub fn count_expr(alloc: Global, found: &mut Noted, e: &TypedExpr) -> Result<(), AllocError>
    ensures { OnOk result (found.new ≡ noted found.old (counts_of_expr (expr_view e.now))) }
{
    count_part(alloc, found, Part::Value(e))
}
