//! Designators: the name at the front, and each selector in turn. Behind what is not sound the values
//! in selectors are judged all the same.

ghost use Rattle.std.specs.Prelude.{◌≡◌, IfOk, OnOk, map};
ghost use Rattle.ob_rules.specs.Books.{book_after};
ghost use Rattle.ob_rules.specs.Designators as designators;
ghost use Rattle.ob_rules.specs.Expressions as spec;
ghost use Rattle.ob_rules.specs.Names.{map_of};
ghost use Rattle.ob_cexpr.specs.Plain.{behind_front, step_if, visited_one};

use crate::calls::check_round;
use crate::walk::check_expr;
use ob_cexpr_designator::{Front, front_named};
use ob_cexpr_operand::{index_step, is_one_type, name_behind, select_step, up_step, where_behind};
use ob_rules::{Meant, Notebook, Surroundings, Where};
use ob_tree::{Designator, Expr, Pos, Selector};
use std::alloc::{AllocError, Global};

/// What a designator comes to that stands in an expression, as a statement, or elsewhere: none where
/// it breaks a rule, or a declaration that it names does. What is broken, and what it names, is
/// noted in the book.
#[cycle(walk)]
pub fn check_designator<S: Surroundings>(
    alloc: Global,
    here: &S,
    book: &mut Notebook,
    place: Where,
    d: &Designator,
) -> Result<Option<Meant>, AllocError>
    ensures made { IfOk result (λ r. r ≡ (spec.meant_by place (spec.named_of d.now) (S.around here.now)).node) }
    ensures noted { OnOk result (book.new ≡ book_after book.old (spec.meant_by place (spec.named_of d.now) (S.around here.now)).notes) }
{
    let selectors = d.selectors.as_slice();
    let front = front_named(alloc, here, book, &d.ident.ident(), name_behind(selectors))?;
    check_behind(alloc, here, book, place, d.ident.pos(), selectors, front)
}

#[cycle(walk)]
fn check_behind<S: Surroundings>(
    alloc: Global,
    here: &S,
    book: &mut Notebook,
    place: Where,
    start: Pos,
    selectors: &[Selector],
    front: Option<Front>,
) -> Result<Option<Meant>, AllocError>
    ensures made { IfOk result (λ r. r ≡ (behind_front (S.around here.now) place start (map spec.behind_of selectors.now) front).node) }
    ensures noted { OnOk result (book.new ≡ book_after book.old (behind_front (S.around here.now) place start (map spec.behind_of selectors.now) front).notes) }
{
    match front {
        None => {
            visit_selectors(alloc, here, book, selectors)?;
            Ok(None)
        }
        Some(front) => {
            let Front { meant, with_name } = front;
            check_selectors(alloc, here, book, place, start, selectors, with_name, meant)
        }
    }
}

// Each selector in turn, behind the front, with which the first of them may be taken.
#[cycle(walk)]
fn check_selectors<S: Surroundings>(
    alloc: Global,
    here: &S,
    book: &mut Notebook,
    place: Where,
    start: Pos,
    selectors: &[Selector],
    with_name: bool,
    meant: Meant,
) -> Result<Option<Meant>, AllocError>
    ensures made { IfOk result (λ r. r ≡ (designators.through (S.around here.now) place start (designators.behind with_name (map spec.behind_of selectors.now)) meant).node) }
    ensures noted { OnOk result (book.new ≡ book_after book.old (designators.through (S.around here.now) place start (designators.behind with_name (map spec.behind_of selectors.now)) meant).notes) }
{
    let mut all = Some(meant);
    let mut taken = with_name;
    let mut left = selectors.len();
    'selectors: for selector in selectors {
        left -= 1;
        all = check_selector(
            alloc,
            here,
            book,
            place,
            start,
            selector,
            taken,
            left == 0,
            all,
        )?;
        taken = false;
    }
    Ok(all)
}

#[cycle(walk)]
fn check_selector<S: Surroundings>(
    alloc: Global,
    here: &S,
    book: &mut Notebook,
    place: Where,
    start: Pos,
    selector: &Selector,
    taken: bool,
    last: bool,
    meant: Option<Meant>,
) -> Result<Option<Meant>, AllocError>
    ensures made { IfOk result (λ r. r ≡ (step_if (S.around here.now) place start (spec.behind_of selector.now) taken last meant).node) }
    ensures noted { OnOk result (book.new ≡ book_after book.old (step_if (S.around here.now) place start (spec.behind_of selector.now) taken last meant).notes) }
{
    if taken {
        return Ok(meant);
    }
    match meant {
        None => {
            visit_selector(alloc, here, book, selector)?;
            Ok(None)
        }
        Some(meant) => {
            let place = where_behind(place, last);
            check_step(alloc, here, book, place, start, selector, last, meant)
        }
    }
}

#[cycle(walk)]
#[inline(never)]
fn check_step<S: Surroundings>(
    alloc: Global,
    here: &S,
    book: &mut Notebook,
    place: Where,
    start: Pos,
    selector: &Selector,
    last: bool,
    meant: Meant,
) -> Result<Option<Meant>, AllocError>
    ensures made { IfOk result (λ r. r ≡ (designators.step (S.around here.now) place start meant (spec.behind_of selector.now) last).node) }
    ensures noted { OnOk result (book.new ≡ book_after book.old (designators.step (S.around here.now) place start meant (spec.behind_of selector.now) last).notes) }
{
    match selector {
        Selector::Field { pos, ident } => {
            select_step(alloc, here, book, start, *pos, &ident.ident(), last, meant)
        }
        Selector::Index { pos, index } => check_index(alloc, here, book, *pos, index, meant),
        Selector::Deref(pos) => up_step(alloc, here, book, *pos, meant),
        Selector::Call { pos, arguments } => {
            check_round(
                alloc,
                here,
                book,
                place,
                start,
                *pos,
                arguments.as_slice(),
                meant,
            )
        }
    }
}

#[cycle(walk)]
#[inline(never)]
fn check_index<S: Surroundings>(
    alloc: Global,
    here: &S,
    book: &mut Notebook,
    at: Pos,
    index: &Expr,
    meant: Meant,
) -> Result<Option<Meant>, AllocError>
    ensures made { IfOk result (λ r. r ≡ (designators.step_index (map_of (S.around here.now)) at ((spec.phrase_of index.now).value (S.around here.now)) meant).node) }
    ensures noted { OnOk result (book.new ≡ book_after book.old (designators.step_index (map_of (S.around here.now)) at ((spec.phrase_of index.now).value (S.around here.now)) meant).notes) }
{
    let i = check_expr(alloc, here, book, index)?;
    index_step(alloc, here, book, at, i, meant)
}

#[cycle(walk)]
#[inline(never)]
fn visit_selectors<S: Surroundings>(
    alloc: Global,
    here: &S,
    book: &mut Notebook,
    selectors: &[Selector],
) -> Result<(), AllocError>
    ensures { OnOk result (book.new ≡ book_after book.old (designators.all_visited (S.around here.now) (map spec.behind_of selectors.now))) }
{
    'selectors: for selector in selectors {
        visit_selector(alloc, here, book, selector)?;
    }
    Ok(())
}

#[cycle(walk)]
#[inline(never)]
fn visit_selector<S: Surroundings>(
    alloc: Global,
    here: &S,
    book: &mut Notebook,
    selector: &Selector,
) -> Result<(), AllocError>
    ensures { OnOk result (book.new ≡ book_after book.old (visited_one (S.around here.now) (spec.behind_of selector.now))) }
{
    match selector {
        Selector::Field { .. } => Ok(()),
        Selector::Index { index, .. } => {
            let _ = check_expr(alloc, here, book, index)?;
            Ok(())
        }
        Selector::Deref(_) => Ok(()),
        Selector::Call { arguments, .. } => {
            visit_arguments(alloc, here, book, arguments.as_slice())
        }
    }
}

/// Judges the values in round brackets, of which nothing more is asked. A type's name is none.
#[cycle(walk)]
#[inline(never)]
pub fn visit_arguments<S: Surroundings>(
    alloc: Global,
    here: &S,
    book: &mut Notebook,
    arguments: &[Expr],
) -> Result<(), AllocError>
    ensures { OnOk result (book.new ≡ book_after book.old (designators.visited (S.around here.now) (map spec.phrase_of arguments.now))) }
{
    'arguments: for argument in arguments {
        visit_argument(alloc, here, book, argument)?;
    }
    Ok(())
}

#[cycle(walk)]
fn visit_argument<S: Surroundings>(
    alloc: Global,
    here: &S,
    book: &mut Notebook,
    argument: &Expr,
) -> Result<(), AllocError>
    ensures { OnOk result (book.new ≡ book_after book.old (designators.visit (designators.is_one_type (S.around here.now) (spec.phrase_of argument.now).name) (S.around here.now) (spec.phrase_of argument.now))) }
{
    if is_one_type(here, argument) {
        return Ok(());
    }
    let _ = check_expr(alloc, here, book, argument)?;
    Ok(())
}
