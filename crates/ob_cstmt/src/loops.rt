//! The bounds and the step of FOR.

ghost use Rattle.std.specs.Prelude.{◌≡◌, IfOk, OnOk};
ghost use Rattle.std.specs.Option.{option_copied};
ghost use Rattle.ob_rules.specs.Books.{book_after};
ghost use Rattle.ob_rules.specs.Expressions as exprs;
ghost use Rattle.ob_rules.specs.Names as names;
ghost use Rattle.ob_rules.specs.Statements as spec;
ghost use Rattle.ob_cstmt_parts.specs.Seen.{expr_in};

use ob_cexpr_name::types;
use ob_cexpr_trait::CheckExpr;
use ob_cstmt_parts::{for_bound, step_value};
use ob_rules::{Notebook, Place, Surroundings};
use ob_tree::{Boxed, Expr, Pos};
use ob_types_trees::ExprTree;
use std::alloc::{AllocError, Global};

/// A bound of FOR. Rule 34, and those of the expression.
pub fn check_bound<S: Surroundings, C: CheckExpr>(
    alloc: Global,
    checker: &C,
    here: &S,
    book: &mut Notebook,
    at: Pos,
    place: Option<&Place>,
    x: &Boxed<Expr>,
) -> Result<Option<ExprTree>, AllocError>
    ensures made { IfOk result (λ r. expr_in r ≡ (spec.bound_if (names.map_of (S.around here.now)) at (option_copied place.entry) ((exprs.phrase_of x.now).value (S.around here.now))).node) }
    ensures noted { OnOk result (book.new ≡ book_after book.old (spec.bound_if (names.map_of (S.around here.now)) at (option_copied place.entry) ((exprs.phrase_of x.now).value (S.around here.now))).notes) }
{
    let value = checker.check_expr(alloc, here, book, x.get())?;
    match place {
        None => Ok(None),
        Some(place) => match value {
            None => Ok(None),
            Some(value) => Ok(for_bound(types(here), book, at, place, value)),
        },
    }
}

fn check_step<S: Surroundings, C: CheckExpr>(
    alloc: Global,
    checker: &C,
    here: &S,
    book: &mut Notebook,
    at: Pos,
    x: &Expr,
) -> Result<Option<i32>, AllocError>
    ensures made { IfOk result (λ r. r ≡ (spec.step_of (S.around here.now) at (exprs.phrase_of x.now)).node) }
    ensures noted { OnOk result (book.new ≡ book_after book.old (spec.step_of (S.around here.now) at (exprs.phrase_of x.now)).notes) }
{
    match checker.check_constant(alloc, here, book, x)? {
        None => Ok(None),
        Some(value) => Ok(step_value(book, at, &value)),
    }
}

/// The step of FOR, 1 where none is written. Rules 34 and 10, and those of the expression.
pub fn check_step_if<S: Surroundings, C: CheckExpr>(
    alloc: Global,
    checker: &C,
    here: &S,
    book: &mut Notebook,
    at: Pos,
    x: &Option<Boxed<Expr>>,
) -> Result<Option<i32>, AllocError>
    ensures made { IfOk result (λ r. r ≡ (spec.for_step (S.around here.now) at (spec.phrase_if x.now)).node) }
    ensures noted { OnOk result (book.new ≡ book_after book.old (spec.for_step (S.around here.now) at (spec.phrase_if x.now)).notes) }
{
    match x {
        None => Ok(Some(1)),
        Some(x) => check_step(alloc, checker, here, book, at, x.get()),
    }
}
