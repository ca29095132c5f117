//! Parameters of predeclared procedures.

ghost use Rattle.std.specs.Prelude.{◌≡◌, IfOk, OnOk, map};
ghost use Rattle.std.specs.Option.{option_map};
ghost use Rattle.ob_rules.specs.Books.{book_after};
ghost use Rattle.ob_rules.specs.Judged as judged;
ghost use Rattle.ob_rules.specs.Predeclared as predeclared;
ghost use Rattle.ob_rules.specs.Expressions as spec;
ghost use Rattle.ob_cexpr_arguments.specs.Arguments.{parameters_asked};
ghost use Rattle.ob_cexpr.specs.Plain.{further_of};

use crate::actuals::check_argument;
use crate::walk::check_expr;
use ob_cexpr_arguments::{further, parameter};
use ob_cexpr_operand::{name_in, no_type, row_with, type_parameter};
use ob_cexpr_predeclared::extreme;
use ob_cexpr_trait::start_of;
use ob_rules::{Asked, Meant, Notebook, Surroundings, Valued, Where};
use ob_tree::{Expr, Pos};
use ob_types::TypeRef;
use std::alloc::{AllocError, Global};

/// Each argument, by what is asked of the first, of the second, and of those behind. None where one
/// of them breaks a rule.
#[cycle(walk)]
#[inline(never)]
pub fn check_parameters<S: Surroundings>(
    alloc: Global,
    here: &S,
    book: &mut Notebook,
    first: Asked,
    second: Asked,
    arguments: &[Expr],
) -> Result<Option<Vec<Valued>>, AllocError>
    ensures made { IfOk result (λ r. option_map (λ v. v.items) r ≡ (judged.each_sound (parameters_asked (S.around here.now) first second (map spec.phrase_of arguments.now))).node) }
    ensures noted { OnOk result (book.new ≡ book_after book.old (judged.each_sound (parameters_asked (S.around here.now) first second (map spec.phrase_of arguments.now))).notes) }
{
    let mut row = Some(Vec::new(alloc));
    let mut asked = first;
    let mut next = second;
    'arguments: for argument in arguments {
        let judged = check_argument(alloc, here, book, argument)?;
        let x = parameter(alloc, book, asked, start_of(argument), judged)?;
        row = row_with(row, x)?;
        asked = next;
        next = Asked::Value;
    }
    Ok(row)
}

/// A call of MAX, or else of MIN, whose parameter is a type's name.
#[cycle(walk)]
#[inline(never)]
pub fn check_extreme<S: Surroundings>(
    alloc: Global,
    here: &S,
    book: &mut Notebook,
    place: Where,
    at: Pos,
    max: bool,
    arguments: &[Expr],
) -> Result<Option<Meant>, AllocError>
    ensures made { IfOk result (λ r. r ≡ (predeclared.extreme_call max (S.around here.now) place at (map spec.phrase_of arguments.now)).node) }
    ensures noted { OnOk result (book.new ≡ book_after book.old (predeclared.extreme_call max (S.around here.now) place at (map spec.phrase_of arguments.now)).notes) }
{
    match arguments {
        // No type is named, and none stands behind it. Passed whole, the list shows that this function
        // is above the other, so the call with a part of it goes down too.
        [] => {
            let unnamed = Some(None);
            check_further(alloc, here, book, place, at, &unnamed, arguments)
        }
        [only] => {
            let t = check_type_parameter(alloc, here, book, only)?;
            extreme(here, book, max, place, at, t)
        }
        [first, behind @ ..] => {
            let t = check_type_parameter(alloc, here, book, first)?;
            check_further(alloc, here, book, place, at, &t, behind)
        }
    }
}

// The same where there is not one parameter alone, which breaks rule 28: what the first comes to is
// there already, and those behind it are judged too, where it is sound.
#[cycle(walk)]
#[inline(never)]
fn check_further<S: Surroundings>(
    alloc: Global,
    here: &S,
    book: &mut Notebook,
    place: Where,
    at: Pos,
    first: &Option<Option<TypeRef>>,
    behind: &[Expr],
) -> Result<Option<Meant>, AllocError>
    ensures made { IfOk result (λ r. r ≡ (further_of (S.around here.now) place at (map spec.phrase_of behind.now) first.now).node) }
    ensures noted { OnOk result (book.new ≡ book_after book.old (further_of (S.around here.now) place at (map spec.phrase_of behind.now) first.now).notes) }
{
    match first {
        None => Ok(None),
        Some(_) => {
            let row = check_parameters(alloc, here, book, Asked::Value, Asked::Value, behind)?;
            Ok(further(book, place, at, row))
        }
    }
}

#[cycle(walk)]
#[inline(never)]
fn check_type_parameter<S: Surroundings>(
    alloc: Global,
    here: &S,
    book: &mut Notebook,
    argument: &Expr,
) -> Result<Option<Option<TypeRef>>, AllocError>
    ensures made { IfOk result (λ r. r ≡ (predeclared.type_parameter (S.around here.now) (spec.phrase_of argument.now) (spec.phrase_of argument.now).name).node) }
    ensures noted { OnOk result (book.new ≡ book_after book.old (predeclared.type_parameter (S.around here.now) (spec.phrase_of argument.now) (spec.phrase_of argument.now).name).notes) }
{
    match name_in(argument) {
        Some(name) => type_parameter(alloc, here, book, &name),
        None => {
            let x = check_expr(alloc, here, book, argument)?;
            Ok(no_type(x))
        }
    }
}
