//! How many lines the code of an expression has.

ghost use Rattle.std.specs.Prelude.{◌≡◌};
ghost use Rattle.ob_types.specs.TypedView.{designator_view, expr_view, actuals_view};
ghost use Rattle.ob_gproc_operands.specs.Nowhere.{passed};
ghost use Rattle.ob_gproc_length.specs.Lengths.{capped, desig_lines, expr_lines, actuals_lines};

use crate::pieces::{more, pointed_size};
use ob_gproc_operands::want_for_actual;
use ob_gstmt_labels::{
    between, constant_size, guard_size, joined, place_size, unary_size, variable_size,
};
use ob_scheme::{Want, want_for_guard, want_for_index};
use ob_types::{Actual, Designator, TypedExpr, Types};

/// How many lines the code of a designator has; more than 262,144 are answered as 262,145. Takes no
/// memory, and a chain of selectors takes no more stack than one.
#[cycle(expr_lines)]
#[tactic(auto, using(crate::proofs::Chains::variable_over, crate::proofs::Chains::behind, ob_types::proofs::TypedViews::view_field, ob_types::proofs::TypedViews::view_deref, ob_types::proofs::TypedViews::view_guard))]
pub fn lines_of_designator<T: Types>(types: &T, want: Want, d: &Designator) -> usize
    ensures { result ≡ capped (desig_lines (T.types types.now) want (designator_view d.now)) }
{
    let mut lines = 0;
    let mut wanted = want;
    let mut rest = d;
    'selectors: loop {
        match rest {
            Designator::Variable { variable, .. } => {
                return more(lines, variable_size(wanted, variable));
            }
            Designator::Field { inner, .. } => {
                lines = more(lines, place_size(wanted) + 1);
                wanted = Want::Place;
                rest = inner.get();
            }
            Designator::Index {
                inner,
                length,
                index,
                ..
            } => {
                let at = lines_of_expr(types, Want::Value, index.get());
                lines = more(lines, more(at, place_size(wanted) + 1));
                wanted = want_for_index(*length);
                rest = inner.get();
            }
            Designator::Deref { inner, of, .. } => {
                lines = more(lines, pointed_size(types, wanted, of));
                wanted = Want::Value;
                rest = inner.get();
            }
            Designator::Guard { inner, guarded, .. } => {
                lines = more(lines, guard_size(*guarded, wanted) + 1);
                wanted = want_for_guard(*guarded, wanted);
                rest = inner.get();
            }
        }
    }
}

/// How many lines the code of an expression has; more than 262,144 are answered as 262,145. Takes no
/// memory, and a chain of operators takes no more stack than one.
#[cycle(expr_lines)]
#[tactic(auto, using(crate::proofs::Chains::binary_turn, crate::proofs::Chains::logical_turn, crate::proofs::Chains::chain_over, crate::proofs::Shapes::few_of_constant, crate::proofs::Shapes::one, crate::proofs::Shapes::two, ob_types::proofs::TypedViews::view_constant, ob_types::proofs::TypedViews::view_value_of, ob_types::proofs::TypedViews::view_procedure_value, ob_types::proofs::TypedViews::view_monadic, ob_types::proofs::TypedViews::view_compare_texts, ob_types::proofs::TypedViews::view_is_pointer, ob_types::proofs::TypedViews::view_is_record, ob_types::proofs::TypedViews::view_length, ob_types::proofs::TypedViews::view_call, ob_types::proofs::TypedViews::view_call_variable))]
pub fn lines_of_expr<T: Types>(types: &T, want: Want, e: &TypedExpr) -> usize
    ensures { result ≡ capped (expr_lines (T.types types.now) want (expr_view e.now)) }
{
    let mut lines = 0;
    let mut wanted = want;
    let mut rest = e;
    'operators: loop {
        match rest {
            TypedExpr::Constant(value) => return more(lines, constant_size(wanted, value)),
            TypedExpr::Designator(d) => {
                return more(lines, lines_of_designator(types, wanted, d));
            }
            TypedExpr::Procedure { .. } => return more(lines, 1),
            TypedExpr::Unary { op, operand, .. } => {
                let value = lines_of_expr(types, Want::Value, operand.get());
                return more(lines, more(value, unary_size(*op)));
            }
            TypedExpr::Binary { left, right, .. } => {
                let second = lines_of_expr(types, Want::Value, right.get());
                lines = more(lines, more(second, 1));
                wanted = Want::Value;
                rest = left.get();
            }
            TypedExpr::Logical {
                connective,
                left,
                right,
            } => {
                let second = lines_of_expr(types, Want::Value, right.get());
                let around = between(*connective) + joined(*connective);
                lines = more(lines, more(second, around));
                wanted = Want::Value;
                rest = left.get();
            }
            TypedExpr::CompareTexts { left, right, .. } => {
                let first = lines_of_expr(types, Want::PlaceAndLength, left.get());
                let second = lines_of_expr(types, Want::PlaceAndLength, right.get());
                return more(lines, more(first, more(second, 1)));
            }
            TypedExpr::IsPointer { operand, .. } => {
                let value = lines_of_expr(types, Want::Value, operand.get());
                return more(lines, more(value, 1));
            }
            TypedExpr::IsRecord { inner, .. } => {
                let tag = lines_of_designator(types, Want::Tag, inner);
                return more(lines, more(tag, 1));
            }
            TypedExpr::Length(d) => {
                return more(lines, lines_of_designator(types, Want::Length, d));
            }
            TypedExpr::Call { actuals, .. } => {
                let passed = lines_of_actuals(types, actuals.as_slice());
                return more(lines, more(passed, 1));
            }
            TypedExpr::CallVariable { inner, actuals, .. } => {
                let called = lines_of_designator(types, Want::Value, inner);
                let passed = lines_of_actuals(types, actuals.as_slice());
                return more(lines, more(called, more(passed, 1)));
            }
        }
    }
}

#[cycle(expr_lines)]
fn lines_of_actual<T: Types>(types: &T, actual: &Actual) -> usize
    ensures { result ≡ capped (expr_lines (T.types types.now) (passed actual.now.passing) (expr_view actual.now.value)) }
{
    lines_of_expr(types, want_for_actual(actual.passing), &actual.value)
}

#[cycle(expr_lines)]
fn lines_of_actuals<T: Types>(types: &T, actuals: &[Actual]) -> usize
    ensures { result ≡ capped (actuals_lines (T.types types.now) (actuals_view actuals.now)) }
{
    let mut lines = 0;
    'actuals: for actual in actuals {
        lines = more(lines, lines_of_actual(types, actual));
    }
    lines
}
