//! The value of CASE, and its labels.

ghost use Rattle.std.specs.Prelude.{◌≡◌, IfOk, OnOk, map};
ghost use Rattle.ob_rules.specs.Books.{book_after};
ghost use Rattle.ob_rules.specs.Expressions as exprs;
ghost use Rattle.ob_rules.specs.Statements as spec;

use ob_cexpr_name::types;
use ob_cexpr_trait::{CheckExpr, start_of};
use ob_cstmt_parts::{add_label, case_value_if, label_if, selects_if, with_label};
use ob_rules::{Notebook, Selects, Surroundings, Valued};
use ob_tree::{Boxed, Element, Expr, List};
use ob_types::{Label, Types, Value};
use std::alloc::{AllocError, Global};

// The value of CASE. Rule 33, and those of the expression.
fn case_value<S: Surroundings, C: CheckExpr>(
    alloc: Global,
    checker: &C,
    here: &S,
    book: &mut Notebook,
    x: &Expr,
) -> Result<Option<Valued>, AllocError>
    ensures made { IfOk result (λ r. r ≡ (spec.case_judged (S.around here.now) (exprs.phrase_of x.now)).node) }
    ensures noted { OnOk result (book.new ≡ book_after book.old (spec.case_judged (S.around here.now) (exprs.phrase_of x.now)).notes) }
{
    let value = checker.check_expr(alloc, here, book, x)?;
    Ok(case_value_if(types(here), book, start_of(x), value))
}

fn boxed(alloc: Global, value: Option<Valued>) -> Result<Option<Boxed<Valued>>, AllocError>
    ensures { IfOk result (λ r. r ≡ value) }
{
    match value {
        None => Ok(None),
        Some(value) => {
            let value = Boxed::new(alloc, value)?;
            Ok(Some(value))
        }
    }
}

/// The value of CASE, in a box. Rule 33, and those of the expression.
pub fn boxed_case_value<S: Surroundings, C: CheckExpr>(
    alloc: Global,
    checker: &C,
    here: &S,
    book: &mut Notebook,
    x: &Expr,
) -> Result<Option<Boxed<Valued>>, AllocError>
    ensures made { IfOk result (λ r. r ≡ (spec.case_judged (S.around here.now) (exprs.phrase_of x.now)).node) }
    ensures noted { OnOk result (book.new ≡ book_after book.old (spec.case_judged (S.around here.now) (exprs.phrase_of x.now)).notes) }
{
    let value = case_value(alloc, checker, here, book, x)?;
    boxed(alloc, value)
}

/// The value of CASE out of its box.
pub fn unboxed(value: Option<Boxed<Valued>>) -> Option<Valued>
    ensures { result ≡ value }
{
    match value {
        None => None,
        Some(value) => Some(value.into_inner()),
    }
}

/// What the labels of CASE are to be, where its value is sound.
pub fn case_selects<T: Types>(types: &T, value: &Option<Boxed<Valued>>) -> Option<Selects>
    ensures { result ≡ spec.selects_if (T.types types.now) value.now }
{
    match value {
        None => None,
        Some(value) => selects_if(types, Some(value.get())),
    }
}

// The upper bound of a label, none where it has no other.
fn check_high<S: Surroundings, C: CheckExpr>(
    alloc: Global,
    checker: &C,
    here: &S,
    book: &mut Notebook,
    high: &Option<Expr>,
) -> Result<Option<Option<Value>>, AllocError>
    ensures made { IfOk result (λ r. r ≡ (spec.high_if (S.around here.now) (spec.phrase_if high.now)).node) }
    ensures noted { OnOk result (book.new ≡ book_after book.old (spec.high_if (S.around here.now) (spec.phrase_if high.now)).notes) }
{
    match high {
        None => Ok(Some(None)),
        Some(high) => match checker.check_constant(alloc, here, book, high)? {
            None => Ok(None),
            Some(high) => Ok(Some(Some(high))),
        },
    }
}

fn check_bounds<S: Surroundings, C: CheckExpr>(
    alloc: Global,
    checker: &C,
    here: &S,
    book: &mut Notebook,
    selects: Option<Selects>,
    before: &[Label],
    low: &Expr,
    high: &Option<Expr>,
) -> Result<Option<Label>, AllocError>
    ensures made { IfOk result (λ r. r ≡ (spec.label (S.around here.now) selects before.now (record { low = exprs.phrase_of low.now; high = spec.phrase_if high.now })).node) }
    ensures noted { OnOk result (book.new ≡ book_after book.old (spec.label (S.around here.now) selects before.now (record { low = exprs.phrase_of low.now; high = spec.phrase_if high.now })).notes) }
{
    let start = start_of(low);
    let lower = checker.check_constant(alloc, here, book, low)?;
    let upper = check_high(alloc, checker, here, book, high)?;
    Ok(label_if(book, selects, start, before, lower, upper))
}

/// A label. Rule 33, and those of its bounds.
#[tactic(auto, using(crate::proofs::StmtViews::ranged_is))]
fn check_label<S: Surroundings, C: CheckExpr>(
    alloc: Global,
    checker: &C,
    here: &S,
    book: &mut Notebook,
    selects: Option<Selects>,
    before: &[Label],
    element: &Element,
) -> Result<Option<Label>, AllocError>
    ensures made { IfOk result (λ r. r ≡ (spec.label (S.around here.now) selects before.now (exprs.ranged_of element.now)).node) }
    ensures noted { OnOk result (book.new ≡ book_after book.old (spec.label (S.around here.now) selects before.now (exprs.ranged_of element.now)).notes) }
{
    check_bounds(
        alloc,
        checker,
        here,
        book,
        selects,
        before,
        &element.low,
        &element.high,
    )
}

/// The labels of one alternative, after those before it, which they join. Rule 33, and those of
/// their bounds.
pub fn check_labels<S: Surroundings, C: CheckExpr>(
    alloc: Global,
    checker: &C,
    here: &S,
    book: &mut Notebook,
    selects: Option<Selects>,
    before: &mut List<Label>,
    labels: &[Element],
) -> Result<Option<List<Label>>, AllocError>
    ensures made { IfOk result (λ r. r ≡ (spec.labels (S.around here.now) selects before.old (map exprs.ranged_of labels.now)).found.node) }
    ensures noted { OnOk result (book.new ≡ book_after book.old (spec.labels (S.around here.now) selects before.old (map exprs.ranged_of labels.now)).found.notes) }
    ensures before { OnOk result (before.new ≡ (spec.labels (S.around here.now) selects before.old (map exprs.ranged_of labels.now)).before) }
{
    let mut all = Some(List::new(alloc));
    'labels: for element in labels {
        let label = check_label(
            alloc,
            checker,
            here,
            book,
            selects,
            before.as_slice(),
            element,
        )?;
        add_label(before, label)?;
        all = with_label(all, label)?;
    }
    Ok(all)
}
