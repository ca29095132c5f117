//! The walk over expressions, as what judges them.

ghost use Rattle.std.specs.Prelude.{◌≡◌, IfOk, OnOk};
ghost use Rattle.ob_rules.specs.Books.{book_after};
ghost use Rattle.ob_rules.specs.Expressions as spec;

use crate::designators::check_designator;
use crate::walk::{check_constant, check_expr};
use ob_cexpr_trait::CheckExpr;
use ob_rules::{Meant, Notebook, Surroundings, Valued, Where};
use ob_tree::{Designator, Expr};
use ob_types::Value;
use std::alloc::{AllocError, Global};

/// What judges expressions by the rules, as they are written.
#[derive(Drop)]
pub struct ExprChecker;

impl CheckExpr for ExprChecker {
    fn check_expr<S: Surroundings>(
        &self,
        alloc: Global,
        here: &S,
        book: &mut Notebook,
        e: &Expr,
    ) -> Result<Option<Valued>, AllocError> {
        check_expr(alloc, here, book, e)
    }

    fn check_constant<S: Surroundings>(
        &self,
        alloc: Global,
        here: &S,
        book: &mut Notebook,
        e: &Expr,
    ) -> Result<Option<Value>, AllocError> {
        check_constant(alloc, here, book, e)
    }

    fn check_designator<S: Surroundings>(
        &self,
        alloc: Global,
        here: &S,
        book: &mut Notebook,
        place: Where,
        d: &Designator,
    ) -> Result<Option<Meant>, AllocError> {
        check_designator(alloc, here, book, place, d)
    }
}
