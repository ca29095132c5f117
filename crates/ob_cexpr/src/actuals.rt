//! Arguments in round brackets, and rows of actual parameters.

ghost use Rattle.std.specs.Prelude.{◌≡◌, IfOk, OnOk, map};
ghost use Rattle.ob_rules.specs.Books.{book_after};
ghost use Rattle.ob_rules.specs.Calls as calls;
ghost use Rattle.ob_rules.specs.Expressions as spec;
ghost use Rattle.ob_cexpr_call.specs.Rows.{row_seen};
ghost use Rattle.ob_cexpr_arguments.specs.Arguments.{argument_of, argument_says};

use crate::designators::check_designator;
use crate::walk::check_expr;
use ob_cexpr_arguments::{Argument, with_actual};
use ob_cexpr_operand::formal_at;
use ob_cexpr_trait::start_of;
use ob_rules::{Notebook, Surroundings, Where};
use ob_tree::Expr;
use ob_types::{Mode, TypeRef};
use ob_types_trees::ActualTrees;
use std::alloc::{AllocError, Global};

/// An argument, judged by itself.
#[cycle(walk)]
#[inline(always)]
pub fn check_argument<S: Surroundings>(
    alloc: Global,
    here: &S,
    book: &mut Notebook,
    argument: &Expr,
) -> Result<Argument, AllocError>
    ensures made { IfOk result (λ r. r ≡ argument_of (S.around here.now) (spec.phrase_of argument.now).meant ((spec.phrase_of argument.now).value (S.around here.now))) }
    ensures noted { OnOk result (book.new ≡ book_after book.old (argument_says (S.around here.now) (spec.phrase_of argument.now).meant ((spec.phrase_of argument.now).value (S.around here.now)))) }
{
    if let Expr::Designator(d) = argument {
        let meant = check_designator(alloc, here, book, Where::InExpression, d)?;
        return Ok(Argument::Designator(meant));
    }
    let x = check_expr(alloc, here, book, argument)?;
    Ok(Argument::Other(x))
}

/// Each argument with its formal parameter; what stands behind the last formal one is judged too.
/// None where one of them breaks a rule.
#[cycle(walk)]
#[inline(never)]
pub fn check_actuals<S: Surroundings>(
    alloc: Global,
    here: &S,
    book: &mut Notebook,
    params: &[(Mode, TypeRef)],
    arguments: &[Expr],
) -> Result<Option<ActualTrees>, AllocError>
    ensures made { IfOk result (λ r. row_seen r ≡ (calls.actuals (S.around here.now) params.now (map spec.phrase_of arguments.now)).node) }
    ensures noted { OnOk result (book.new ≡ book_after book.old (calls.actuals (S.around here.now) params.now (map spec.phrase_of arguments.now)).notes) }
{
    let mut row = Some(ActualTrees::new(alloc));
    let mut number = 0;
    'arguments: for argument in arguments {
        let judged = check_argument(alloc, here, book, argument)?;
        let formal = formal_at(params, number);
        row = with_actual(alloc, here, book, formal, start_of(argument), judged, row)?;
        number += 1;
    }
    Ok(row)
}
