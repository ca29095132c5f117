//! Strings of expressions that are used as arrays.

ghost use Rattle.std.specs.Prelude.{ℕ, ◌≡◌, ◌<◌, ◌≤◌, ◌+◌, ◌++◌, [], ◌∷◌, OnOk};
ghost use Rattle.std.specs.Option.{option_copied};
ghost use Rattle.ob_types.specs.declared.types.TypeRef.{TypeRef};
ghost use Rattle.ob_types.specs.TypedView.{designator_view, expr_view, actuals_view};
ghost use Rattle.ob_layout.specs.Texts.{texts_of_value, passed_texts, texts_of_designator, texts_of_expr, texts_of_actuals};
ghost use Rattle.ob_layout.specs.Sizes.{size_of_designator, size_of_expr, size_of_actuals};
ghost use Rattle.ob_layout.specs.Parts.{size_of_part, size_of_parts, texts_of_part, texts_of_parts};
ghost use Rattle.ob_layout.specs.Used.{used, counted, text_of_value, written_text};

use crate::words::counted_words;
use ob_tree::{List, Text};
use ob_types::{Actual, Designator, Passing, TypedExpr, Types, Value};
use std::alloc::{AllocError, Global};

/// A string that is used as an array, and the words that it has among the globals, those above
/// 4,294,967,296 as that number.
#[derive(Drop)]
pub struct UsedText {
    pub text: Text,
    pub words: u64,
}

#[tactic(auto, using(crate::proofs::UsedTexts::one_more))]
fn push_text(
    alloc: Global,
    out: &mut List<UsedText>,
    text: &Text,
    words: u64,
) -> Result<(), AllocError>
    ensures { OnOk result (used out.new ≡ used out.old ++ record { text = text.now; words = words } ∷ []) }
{
    let text = List::from_slice(alloc, text.as_slice())?;
    out.push(UsedText { text, words })
}

fn text_in(value: &Value) -> Option<&Text>
    ensures { option_copied result ≡ text_of_value value.now }
{
    match value {
        Value::Str(text) => Some(text),
        _ => None,
    }
}

#[tactic(auto, using(crate::proofs::UsedTexts::views))]
fn written(e: &TypedExpr) -> Option<&Text>
    ensures { option_copied result ≡ written_text (expr_view e.now) }
{
    match e {
        TypedExpr::Constant(value) => text_in(value),
        TypedExpr::Designator(_) => None,
        TypedExpr::Procedure { .. } => None,
        TypedExpr::Unary { .. } => None,
        TypedExpr::Binary { .. } => None,
        TypedExpr::Logical { .. } => None,
        TypedExpr::CompareTexts { .. } => None,
        TypedExpr::IsPointer { .. } => None,
        TypedExpr::IsRecord { .. } => None,
        TypedExpr::Length(_) => None,
        TypedExpr::Call { .. } => None,
        TypedExpr::CallVariable { .. } => None,
    }
}

#[tactic(auto, using(crate::proofs::UsedTexts::no_text, crate::proofs::UsedTexts::own_text))]
fn texts_in_value(alloc: Global, out: &mut List<UsedText>, value: &Value) -> Result<(), AllocError>
    ensures { OnOk result (used out.new ≡ used out.old ++ texts_of_value value.now) }
{
    match text_in(value) {
        None => Ok(()),
        Some(text) => {
            let bytes = text.as_slice();
            push_text(alloc, out, text, bytes.len() as u64 + 1)
        }
    }
}

// A part of an expression or of a designator that is still to be gone through.
#[derive(Clone, Copy)]
enum Part<'a> {
    Place(&'a Designator),
    Value(&'a TypedExpr),
    Actuals(&'a [Actual]),
}

// What is put last is taken first.
fn put<'a>(parts: &mut Vec<Part<'a>>, part: Part<'a>) -> Result<(), AllocError>
    ensures { OnOk result (parts.new.items ≡ parts.old.items ++ part.entry ∷ []) }
{
    parts.push(part)?;
    Ok(())
}

// Takes an actual parameter apart.
#[tactic(auto, using(crate::proofs::UsedTexts::part_more, crate::proofs::UsedTexts::size_more, crate::proofs::UsedTexts::passed_none, crate::proofs::UsedTexts::passed_text))]
fn take_actual<'a, T: Types>(
    alloc: Global,
    types: &T,
    out: &mut List<UsedText>,
    parts: &mut Vec<Part<'a>>,
    actual: &'a Actual,
) -> Result<(), AllocError>
    ensures texts { OnOk result (used out.new ++ texts_of_parts (counted (T.types types.now)) parts.new.items ≡ used out.old ++ (passed_texts actual.now.passing (expr_view actual.now.value) (counted (T.types types.now) actual.now.formal) (texts_of_expr (counted (T.types types.now)) (expr_view actual.now.value)) ++ texts_of_parts (counted (T.types types.now)) parts.old.items)) }
    ensures size { OnOk result (size_of_parts parts.new.items ≤ size_of_expr (expr_view actual.now.value) + size_of_parts parts.old.items) }
{
    match actual.passing {
        Passing::Structure => match written(&actual.value) {
            None => put(parts, Part::Value(&actual.value)),
            Some(text) => push_text(alloc, out, text, counted_words(types, &actual.formal)),
        },
        Passing::Scalar => put(parts, Part::Value(&actual.value)),
        Passing::OpenArray => put(parts, Part::Value(&actual.value)),
        Passing::Variable => put(parts, Part::Value(&actual.value)),
        Passing::VariableRecord => put(parts, Part::Value(&actual.value)),
        Passing::VariableOpenArray => put(parts, Part::Value(&actual.value)),
    }
}

// Takes the first of some actual parameters apart.
#[tactic(auto, using(crate::proofs::UsedTexts::part_more, crate::proofs::UsedTexts::size_more, crate::proofs::UsedTexts::views))]
fn take_actuals<'a, T: Types>(
    alloc: Global,
    types: &T,
    out: &mut List<UsedText>,
    parts: &mut Vec<Part<'a>>,
    actuals: &'a [Actual],
) -> Result<(), AllocError>
    ensures texts { OnOk result (used out.new ++ texts_of_parts (counted (T.types types.now)) parts.new.items ≡ used out.old ++ (texts_of_actuals (counted (T.types types.now)) (actuals_view actuals.now) ++ texts_of_parts (counted (T.types types.now)) parts.old.items)) }
    ensures size { OnOk result (size_of_parts parts.new.items < size_of_actuals (actuals_view actuals.now) + size_of_parts parts.old.items) }
{
    match actuals {
        [] => Ok(()),
        [first, rest @ ..] => {
            put(parts, Part::Actuals(rest))?;
            take_actual(alloc, types, out, parts, first)
        }
    }
}

// Takes a part apart: its strings that are found at once stand before those of the parts in it.
#[tactic(auto, using(crate::proofs::UsedTexts::part_more, crate::proofs::UsedTexts::size_more, crate::proofs::UsedTexts::views))]
fn take_apart<'a, T: Types>(
    alloc: Global,
    types: &T,
    out: &mut List<UsedText>,
    parts: &mut Vec<Part<'a>>,
    part: Part<'a>,
) -> Result<(), AllocError>
    ensures texts { OnOk result (used out.new ++ texts_of_parts (counted (T.types types.now)) parts.new.items ≡ used out.old ++ (texts_of_part (counted (T.types types.now)) part.entry ++ texts_of_parts (counted (T.types types.now)) parts.old.items)) }
    ensures size { OnOk result (size_of_parts parts.new.items < size_of_part part.entry + size_of_parts parts.old.items) }
{
    match part {
        Part::Place(d) => match d {
            Designator::Variable { .. } => Ok(()),
            Designator::Field { inner, .. } => put(parts, Part::Place(inner.get())),
            Designator::Index { inner, index, .. } => {
                put(parts, Part::Value(index.get()))?;
                put(parts, Part::Place(inner.get()))
            }
            Designator::Deref { inner, .. } => put(parts, Part::Place(inner.get())),
            Designator::Guard { inner, .. } => put(parts, Part::Place(inner.get())),
        },
        Part::Value(e) => match e {
            TypedExpr::Constant(value) => texts_in_value(alloc, out, value),
            TypedExpr::Designator(d) => put(parts, Part::Place(d)),
            TypedExpr::Procedure { .. } => Ok(()),
            TypedExpr::Unary { operand, .. } => put(parts, Part::Value(operand.get())),
            TypedExpr::Binary { left, right, .. } => {
                put(parts, Part::Value(right.get()))?;
                put(parts, Part::Value(left.get()))
            }
            TypedExpr::Logical { left, right, .. } => {
                put(parts, Part::Value(right.get()))?;
                put(parts, Part::Value(left.get()))
            }
            TypedExpr::CompareTexts { left, right, .. } => {
                put(parts, Part::Value(right.get()))?;
                put(parts, Part::Value(left.get()))
            }
            TypedExpr::IsPointer { operand, .. } => put(parts, Part::Value(operand.get())),
            TypedExpr::IsRecord { inner, .. } => put(parts, Part::Place(inner)),
            TypedExpr::Length(d) => put(parts, Part::Place(d)),
            TypedExpr::Call { actuals, .. } => put(parts, Part::Actuals(actuals.as_slice())),
            TypedExpr::CallVariable { inner, actuals, .. } => {
                put(parts, Part::Actuals(actuals.as_slice()))?;
                put(parts, Part::Place(inner))
            }
        },
        Part::Actuals(actuals) => take_actuals(alloc, types, out, parts, actuals),
    }
}

// The parts wait in a list of their own, so a long chain of operators or of selectors takes no
// more of the stack than a short one.
fn texts_in<T: Types>(
    alloc: Global,
    types: &T,
    out: &mut List<UsedText>,
    part: Part<'_>,
) -> Result<(), AllocError>
    ensures { OnOk result (used out.new ≡ used out.old ++ texts_of_part (counted (T.types types.now)) part.entry) }
{
    let mut parts = Vec::new(alloc);
    take_apart(alloc, types, out, &mut parts, part)?;
    'parts: while let Some(next) = parts.pop() {
        take_apart(alloc, types, out, &mut parts, next)?;
    }
    Ok(())
}

/// Puts the strings that an expression uses as arrays behind those that are there.
pub fn texts_of_expression<T: Types>(
    alloc: Global,
    types: &T,
    out: &mut List<UsedText>,
    e: &TypedExpr,
) -> Result<(), AllocError>
    ensures { OnOk result (used out.new ≡ used out.old ++ texts_of_expr (counted (T.types types.now)) (expr_view e.now)) }
{
    texts_in(alloc, types, out, Part::Value(e))
}

/// Puts the strings that a designator uses as arrays behind those that are there.
pub fn texts_of_place<T: Types>(
    alloc: Global,
    types: &T,
    out: &mut List<UsedText>,
    d: &Designator,
) -> Result<(), AllocError>
    ensures { OnOk result (used out.new ≡ used out.old ++ texts_of_designator (counted (T.types types.now)) (designator_view d.now)) }
{
    texts_in(alloc, types, out, Part::Place(d))
}
