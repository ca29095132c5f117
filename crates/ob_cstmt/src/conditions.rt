//! Conditions.

ghost use Rattle.std.specs.Prelude.{◌≡◌, IfOk, OnOk};
ghost use Rattle.ob_rules.specs.Books.{book_after};
ghost use Rattle.ob_rules.specs.Expressions as exprs;
ghost use Rattle.ob_rules.specs.Statements as spec;
ghost use Rattle.ob_cstmt_parts.specs.Seen.{expr_in};

use ob_cexpr_name::types;
use ob_cexpr_trait::{CheckExpr, start_of};
use ob_cstmt_parts::truth;
use ob_rules::{Notebook, Surroundings};
use ob_tree::Expr;
use ob_types_trees::ExprTree;
use std::alloc::{AllocError, Global};

/// A condition. Rule 32, and those of the expression.
pub fn condition<S: Surroundings, C: CheckExpr>(
    alloc: Global,
    checker: &C,
    here: &S,
    book: &mut Notebook,
    x: &Expr,
) -> Result<Option<ExprTree>, AllocError>
    ensures made { IfOk result (λ r. expr_in r ≡ (spec.condition (S.around here.now) (exprs.phrase_of x.now)).node) }
    ensures noted { OnOk result (book.new ≡ book_after book.old (spec.condition (S.around here.now) (exprs.phrase_of x.now)).notes) }
{
    match checker.check_expr(alloc, here, book, x)? {
        None => Ok(None),
        Some(value) => Ok(truth(types(here), book, start_of(x), value)),
    }
}
