//! How many operands an expression needs.

ghost use Rattle.std.specs.Prelude.{◌≡◌, ◌+◌, max};
ghost use Rattle.ob_types.specs.TypedView.{designator_view, expr_view, actual_view, actuals_view};
ghost use Rattle.ob_scheme.specs.Needs.{need_desig, need_expr, need_actuals};
ghost use Rattle.ob_gproc_operands.specs.Capped.{capped};
ghost use Rattle.ob_gproc_operands.specs.Nowhere.{nowhere, passed};

use crate::wants::{above, larger, operands_of, operands_of_result, want_for_actual};
use ob_scheme::{Want, want_for_guard, want_for_index};
use ob_types::{Actual, Designator, TypedExpr};

/// How many operands stand at most while a designator's code runs, above those that stood before it; more than 256 are
/// answered as 257. Takes no memory, and a chain of selectors takes no more stack than one.
#[cycle(need_expr)]
#[tactic(auto, using(crate::proofs::Chains::variable_over, crate::proofs::Chains::selector, ob_types::proofs::TypedViews::view_field, ob_types::proofs::TypedViews::view_deref, ob_types::proofs::TypedViews::view_guard))]
pub fn operands_of_designator(want: Want, d: &Designator) -> u32
    ensures { result ≡ capped (need_desig nowhere want (designator_view d.now)) }
{
    let mut need = 0;
    let mut wanted = want;
    let mut rest = d;
    'selectors: loop {
        need = larger(need, operands_of(wanted));
        match rest {
            Designator::Variable { .. } => return need,
            Designator::Field { inner, .. } => {
                wanted = Want::Place;
                rest = inner.get();
            }
            Designator::Index {
                inner,
                length,
                index,
                ..
            } => {
                wanted = want_for_index(*length);
                let at = operands_of_expr(Want::Value, index.get());
                need = larger(need, above(operands_of(wanted), at));
                rest = inner.get();
            }
            Designator::Deref { inner, .. } => {
                wanted = Want::Value;
                rest = inner.get();
            }
            Designator::Guard { inner, guarded, .. } => {
                wanted = want_for_guard(*guarded, wanted);
                rest = inner.get();
            }
        }
    }
}

/// How many operands stand at most while an expression's code runs, above those that stood before it; more than 256 are
/// answered as 257. Takes no memory, and a chain of operators takes no more stack than one.
#[cycle(need_expr)]
#[tactic(auto, using(crate::proofs::Chains::binary_turn, crate::proofs::Chains::logical_turn, crate::proofs::Chains::chain_over, crate::proofs::Shapes::above_needs, crate::proofs::Shapes::result_behind, crate::proofs::Shapes::few_wanted, ob_types::proofs::TypedViews::view_constant, ob_types::proofs::TypedViews::view_value_of, ob_types::proofs::TypedViews::view_procedure_value, ob_types::proofs::TypedViews::view_monadic, ob_types::proofs::TypedViews::view_compare_texts, ob_types::proofs::TypedViews::view_is_pointer, ob_types::proofs::TypedViews::view_is_record, ob_types::proofs::TypedViews::view_length, ob_types::proofs::TypedViews::view_call, ob_types::proofs::TypedViews::view_call_variable))]
pub fn operands_of_expr(want: Want, e: &TypedExpr) -> u32
    ensures { result ≡ capped (need_expr nowhere want (expr_view e.now)) }
{
    let mut need = 0;
    let mut wanted = want;
    let mut rest = e;
    'operators: loop {
        match rest {
            TypedExpr::Constant(_) => return larger(need, operands_of(wanted)),
            TypedExpr::Designator(d) => return larger(need, operands_of_designator(wanted, d)),
            TypedExpr::Procedure { .. } => return larger(need, 1),
            TypedExpr::Unary { operand, .. } => {
                return larger(need, operands_of_expr(Want::Value, operand.get()));
            }
            TypedExpr::Binary { left, right, .. } => {
                let second = operands_of_expr(Want::Value, right.get());
                need = larger(need, above(1, second));
                wanted = Want::Value;
                rest = left.get();
            }
            TypedExpr::Logical { left, right, .. } => {
                need = larger(need, operands_of_expr(Want::Value, right.get()));
                wanted = Want::Value;
                rest = left.get();
            }
            TypedExpr::CompareTexts { left, right, .. } => {
                let first = operands_of_expr(Want::PlaceAndLength, left.get());
                let second = operands_of_expr(Want::PlaceAndLength, right.get());
                return larger(need, larger(first, above(2, second)));
            }
            TypedExpr::IsPointer { operand, .. } => {
                return larger(need, operands_of_expr(Want::Value, operand.get()));
            }
            TypedExpr::IsRecord { inner, .. } => {
                return larger(need, operands_of_designator(Want::Tag, inner));
            }
            TypedExpr::Length(d) => return larger(need, operands_of_designator(Want::Length, d)),
            TypedExpr::Call {
                actuals,
                result: outcome,
                ..
            } => {
                let passed = operands_of_actuals(actuals.as_slice());
                return larger(need, larger(passed, operands_of_result(outcome)));
            }
            TypedExpr::CallVariable { inner, actuals, .. } => {
                let called = operands_of_designator(Want::Value, inner);
                let passed = operands_of_actuals(actuals.as_slice());
                return larger(need, larger(called, above(1, passed)));
            }
        }
    }
}

#[cycle(need_expr)]
fn operands_of_actual(actual: &Actual) -> u32
    ensures { result ≡ capped (need_expr nowhere (passed actual.now.passing) (expr_view actual.now.value)) }
{
    operands_of_expr(want_for_actual(actual.passing), &actual.value)
}

#[cycle(need_expr)]
fn operands_of_actuals(actuals: &[Actual]) -> u32
    ensures { result ≡ capped (need_actuals nowhere (actuals_view actuals.now)) }
{
    let mut need = 0;
    let mut standing = 0;
    'actuals: for actual in actuals {
        need = larger(need, above(standing, operands_of_actual(actual)));
        standing = above(standing, operands_of(want_for_actual(actual.passing)));
    }
    larger(need, above(standing, 0))
}
