//! Arguments as actual parameters.

ghost use Rattle.std.specs.Prelude.{◌≡◌, IfOk, OnOk};
ghost use Rattle.std.specs.Option.{option_copied};
ghost use Rattle.ob_rules.specs.Books.{book_after};
ghost use Rattle.ob_rules.specs.Judged as judged;
ghost use Rattle.ob_rules.specs.Names.{map_of};
ghost use Rattle.ob_rules.specs.Calls as calls;
ghost use Rattle.ob_cexpr_call.specs.Rows.{one_seen, row_seen};
ghost use Rattle.ob_cexpr_arguments.specs.Arguments.{value_left, meant_left, left_of};
ghost use Rattle.ob_cexpr_arguments.specs.Rows.{row_behind};

use crate::arguments::{Argument, value_of};
use ob_cexpr_call::{Passed, meant_actual, not_a_variable, row_before, row_with, value_actual};
use ob_rules::{Notebook, Surroundings};
use ob_tree::Pos;
use ob_types::{Mode, TypeRef};
use ob_types_trees::ActualTrees;
use std::alloc::{AllocError, Global};

fn value_passed<S: Surroundings>(
    alloc: Global,
    here: &S,
    book: &mut Notebook,
    formal: &TypeRef,
    start: Pos,
    argument: Argument,
) -> Result<Option<Passed>, AllocError>
    ensures made { IfOk result (λ r. one_seen r ≡ (judged.◌▷◌ (value_left start argument) (calls.value_actual (map_of (S.around here.now)) formal.now start)).node) }
    ensures noted { OnOk result (book.new ≡ book_after book.old (judged.◌▷◌ (value_left start argument) (calls.value_actual (map_of (S.around here.now)) formal.now start)).notes) }
{
    let x = value_of(alloc, book, start, argument)?;
    value_actual(alloc, here, book, formal, start, x)
}

fn variable_passed<S: Surroundings>(
    here: &S,
    book: &mut Notebook,
    formal: &TypeRef,
    start: Pos,
    argument: Argument,
) -> Result<Option<Passed>, AllocError>
    ensures made { IfOk result (λ r. one_seen r ≡ (calls.var_actual (S.around here.now) formal.now (left_of start argument) (meant_left argument)).node) }
    ensures noted { OnOk result (book.new ≡ book_after book.old (calls.var_actual (S.around here.now) formal.now (left_of start argument) (meant_left argument)).notes) }
{
    match argument {
        Argument::Designator(meant) => meant_actual(here, book, formal, start, meant),
        Argument::Other(x) => Ok(not_a_variable(book, start, x)),
    }
}

fn passed<S: Surroundings>(
    alloc: Global,
    here: &S,
    book: &mut Notebook,
    mode: Mode,
    formal: &TypeRef,
    start: Pos,
    argument: Argument,
) -> Result<Option<Passed>, AllocError>
    ensures made { IfOk result (λ r. one_seen r ≡ (calls.actual (S.around here.now) mode formal.now (left_of start argument)).node) }
    ensures noted { OnOk result (book.new ≡ book_after book.old (calls.actual (S.around here.now) mode formal.now (left_of start argument)).notes) }
{
    match mode {
        Mode::Value => value_passed(alloc, here, book, formal, start, argument),
        Mode::Var => variable_passed(here, book, formal, start, argument),
    }
}

/// The row with one more actual parameter, for the formal one that comes next; behind the last formal
/// one it is a value that nothing takes. None where one of them is none, or breaks rule 25, 26 or 38.
#[inline(never)]
pub fn with_actual<S: Surroundings>(
    alloc: Global,
    here: &S,
    book: &mut Notebook,
    formal: Option<&(Mode, TypeRef)>,
    start: Pos,
    argument: Argument,
    row: Option<ActualTrees>,
) -> Result<Option<ActualTrees>, AllocError>
    ensures made { IfOk result (λ r. row_seen r ≡ (row_behind (S.around here.now) (option_copied formal.entry) (left_of start argument) (row_seen row)).node) }
    ensures noted { OnOk result (book.new ≡ book_after book.old (row_behind (S.around here.now) (option_copied formal.entry) (left_of start argument) (row_seen row)).notes) }
{
    match formal {
        None => {
            let x = value_of(alloc, book, start, argument)?;
            Ok(row_before(row, x))
        }
        Some(formal) => {
            let one = passed(alloc, here, book, formal.0, &formal.1, start, argument)?;
            row_with(row, one)
        }
    }
}
