//! Where the code of an expression ends.

ghost use Rattle.std.specs.Prelude.{◌≡◌, ◌+◌, IfOk};
ghost use Rattle.ob_types.specs.TypedView.{designator_view, expr_view, actuals_view};
ghost use Rattle.ob_scheme.specs.Context.{Context, words};
ghost use Rattle.ob_scheme.specs.Expressions.{wanted, end_desig, end_expr, end_actuals};

use crate::sizes::{
    between, constant_size, further, guard_size, joined, place_size, pointer_size, unary_size,
    variable_size,
};
use ob_gexpr_code::{CodeFault, Scope, want_for};
use ob_scheme::{Want, want_for_guard, want_for_index};
use ob_types::{Actual, Designator, TypedExpr};

/// The index behind the code of a designator that begins at an index. A fault is want of memory,
/// or says that the code is longer than a module's may be.
#[cycle(end_expr)]
#[tactic(auto, using(crate::proofs::Behinds::variable_behind, ob_types::proofs::TypedViews::view_variable))]
pub fn end_designator<S: Scope>(
    scope: &S,
    want: Want,
    d: &Designator,
    pc: usize,
) -> Result<usize, CodeFault>
    ensures { IfOk result (λ n. n ≡ end_desig (S.context scope.now) want (designator_view d.now) pc) }
{
    let mut rest = d;
    let mut wanted = want;
    let mut end = pc;
    // The selectors from the last one inward: the sum is the same in any order.
    'selectors: loop {
        match rest {
            Designator::Variable { variable, .. } => {
                return further(end, variable_size(wanted, variable));
            }
            Designator::Field { inner, .. } => {
                end = further(end, place_size(wanted) + 1)?;
                wanted = Want::Place;
                rest = inner.get();
            }
            Designator::Index {
                inner,
                length,
                index,
                ..
            } => {
                let line = end_expr(scope, Want::Value, index.get(), end)?;
                end = further(line, place_size(wanted) + 1)?;
                wanted = want_for_index(*length);
                rest = inner.get();
            }
            Designator::Deref { inner, of, .. } => {
                let lines = pointer_size(scope, wanted, of)?;
                end = further(end, lines)?;
                wanted = Want::Value;
                rest = inner.get();
            }
            Designator::Guard { inner, guarded, .. } => {
                end = further(end, guard_size(*guarded, wanted) + 1)?;
                wanted = want_for_guard(*guarded, wanted);
                rest = inner.get();
            }
        }
    }
}

/// The index behind the code of an expression that begins at an index, with the faults of
/// `end_designator`.
#[cycle(end_expr)]
#[tactic(auto, using(crate::proofs::Behinds::constant_behind, crate::proofs::Behinds::unary_behind, ob_types::proofs::TypedViews::view_constant, ob_types::proofs::TypedViews::view_value_of, ob_types::proofs::TypedViews::view_procedure_value, ob_types::proofs::TypedViews::view_monadic, ob_types::proofs::TypedViews::view_compare_texts, ob_types::proofs::TypedViews::view_is_pointer, ob_types::proofs::TypedViews::view_is_record, ob_types::proofs::TypedViews::view_length, ob_types::proofs::TypedViews::view_call, ob_types::proofs::TypedViews::view_call_variable))]
pub fn end_expr<S: Scope>(
    scope: &S,
    want: Want,
    e: &TypedExpr,
    pc: usize,
) -> Result<usize, CodeFault>
    ensures { IfOk result (λ n. n ≡ end_expr (S.context scope.now) want (expr_view e.now) pc) }
{
    let mut rest = e;
    let mut wanted = want;
    let mut end = pc;
    // The operators of a chain from the last one to its first operand: the sum is the same in any
    // order.
    'operators: loop {
        match rest {
            TypedExpr::Constant(value) => return further(end, constant_size(wanted, value)),
            TypedExpr::Designator(d) => return end_designator(scope, wanted, d, end),
            TypedExpr::Procedure { .. } => return further(end, 1),
            TypedExpr::Unary { op, operand, .. } => {
                let behind = end_expr(scope, Want::Value, operand.get(), end)?;
                return further(behind, unary_size(*op));
            }
            TypedExpr::Binary { left, right, .. } => {
                let line = end_expr(scope, Want::Value, right.get(), end)?;
                end = further(line, 1)?;
                wanted = Want::Value;
                rest = left.get();
            }
            TypedExpr::Logical {
                connective,
                left,
                right,
            } => {
                let start = further(end, between(*connective))?;
                let behind = end_expr(scope, Want::Value, right.get(), start)?;
                end = further(behind, joined(*connective))?;
                wanted = Want::Value;
                rest = left.get();
            }
            TypedExpr::CompareTexts { left, right, .. } => {
                let middle = end_expr(scope, Want::PlaceAndLength, left.get(), end)?;
                let behind = end_expr(scope, Want::PlaceAndLength, right.get(), middle)?;
                return further(behind, 1);
            }
            TypedExpr::IsPointer { operand, .. } => {
                let behind = end_expr(scope, Want::Value, operand.get(), end)?;
                return further(behind, 1);
            }
            TypedExpr::IsRecord { inner, .. } => {
                let behind = end_designator(scope, Want::Tag, inner, end)?;
                return further(behind, 1);
            }
            TypedExpr::Length(d) => return end_designator(scope, Want::Length, d, end),
            TypedExpr::Call { actuals, .. } => {
                let behind = end_actuals(scope, actuals.as_slice(), end)?;
                return further(behind, 1);
            }
            TypedExpr::CallVariable { inner, actuals, .. } => {
                let held = end_designator(scope, Want::Value, inner, end)?;
                let behind = end_actuals(scope, actuals.as_slice(), held)?;
                return further(behind, 1);
            }
        }
    }
}

#[cycle(end_expr)]
fn end_actual<S: Scope>(scope: &S, actual: &Actual, pc: usize) -> Result<usize, CodeFault>
    ensures { IfOk result (λ n. n ≡ end_expr (S.context scope.now) (wanted (words (S.context scope.now)) actual.now.passing actual.now.formal) (expr_view actual.now.value) pc) }
{
    let want = want_for(scope, actual.passing, &actual.formal)?;
    end_expr(scope, want, &actual.value, pc)
}

#[cycle(end_expr)]
fn end_actuals<S: Scope>(scope: &S, actuals: &[Actual], pc: usize) -> Result<usize, CodeFault>
    ensures { IfOk result (λ n. n ≡ end_actuals (S.context scope.now) (actuals_view actuals.now) pc) }
{
    let mut end = pc;
    'actuals: for actual in actuals {
        end = end_actual(scope, actual, end)?;
    }
    Ok(end)
}
