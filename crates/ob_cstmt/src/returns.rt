//! RETURN.

ghost use Rattle.std.specs.Prelude.{◌≡◌, IfOk, OnOk};
ghost use Rattle.ob_rules.specs.Books.{book_after};
ghost use Rattle.ob_rules.specs.Expressions as exprs;
ghost use Rattle.ob_rules.specs.Statements as spec;
ghost use Rattle.ob_cstmt_parts.specs.Seen.{stmt_in};

use ob_cexpr_name::types;
use ob_cexpr_trait::CheckExpr;
use ob_cstmt_parts::{return_alone, returned};
use ob_rules::{Notebook, Surroundings};
use ob_tree::{Expr, Pos};
use ob_types_trees::StmtTree;
use std::alloc::{AllocError, Global};

/// RETURN with a value. Rule 36, and those of the value.
fn return_value<S: Surroundings, C: CheckExpr>(
    alloc: Global,
    checker: &C,
    here: &S,
    book: &mut Notebook,
    at: Pos,
    x: &Expr,
) -> Result<Option<StmtTree>, AllocError>
    ensures made { IfOk result (λ r. stmt_in r ≡ (spec.return_of (S.around here.now) at (exprs.phrase_of x.now)).node) }
    ensures noted { OnOk result (book.new ≡ book_after book.old (spec.return_of (S.around here.now) at (exprs.phrase_of x.now)).notes) }
{
    match checker.check_expr(alloc, here, book, x)? {
        None => Ok(None),
        Some(value) => Ok(returned(types(here), book, at, here.result_type(), value)),
    }
}

/// RETURN. Rule 36, and those of the value.
pub fn check_return<S: Surroundings, C: CheckExpr>(
    alloc: Global,
    checker: &C,
    here: &S,
    book: &mut Notebook,
    at: Pos,
    value: &Option<Expr>,
) -> Result<Option<StmtTree>, AllocError>
    ensures made { IfOk result (λ r. stmt_in r ≡ (spec.return (S.around here.now) at (spec.phrase_if value.now)).node) }
    ensures noted { OnOk result (book.new ≡ book_after book.old (spec.return (S.around here.now) at (spec.phrase_if value.now)).notes) }
{
    match value {
        None => Ok(return_alone(here, book, at)),
        Some(value) => return_value(alloc, checker, here, book, at, value),
    }
}
