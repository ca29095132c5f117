//! The walk over expressions and designators: each part is judged once, and what it says is noted
//! before what stands behind it is looked at.

ghost use Rattle.std.specs.Prelude.{◌≡◌, IfOk, OnOk, map};
ghost use Rattle.std.specs.Option.{option_map};
ghost use Rattle.ob_rules.specs.Books.{book_after};
ghost use Rattle.ob_rules.specs.Expressions as spec;
ghost use Rattle.ob_rules.specs.Judged.{sound, ◌▷◌};
ghost use Rattle.ob_rules.specs.Names.{map_of};
ghost use Rattle.ob_rules.specs.Operators.{opposite, signed};
ghost use Rattle.ob_rules.specs.declared.meant.Where.TheVariants.{InExpression};
ghost use Rattle.ob_cexpr_operand.specs.Plain.{plain};
ghost use Rattle.ob_cexpr.specs.Plain.{elements_judged, set_judged};

use crate::designators::check_designator;
use ob_cexpr_operand::{
    bracketed, character, combined_if, constant_if, element_if, integer, name_in, name_value,
    opposite_if, other_test, related_if, row_with, set_if, signed_if, string, there, type_test,
    value_if,
};
use ob_cexpr_trait::start_of;
use ob_rules::{ElementOf, Notebook, Surroundings, Valued, Where};
use ob_tree::{Designator, Element, Expr, Pos, Relation, Sign, Tail};
use ob_types::Value;
use std::alloc::{AllocError, Global};

/// What an expression comes to: none where it breaks a rule, or a declaration that it names does.
/// What is broken, and what it names, is noted in the book.
#[cycle(walk)]
pub fn check_expr<S: Surroundings>(
    alloc: Global,
    here: &S,
    book: &mut Notebook,
    e: &Expr,
) -> Result<Option<Valued>, AllocError>
    ensures made { IfOk result (λ r. r ≡ ((spec.phrase_of e.now).value (S.around here.now)).node) }
    ensures noted { OnOk result (book.new ≡ book_after book.old ((spec.phrase_of e.now).value (S.around here.now)).notes) }
{
    match e {
        Expr::Designator(d) => check_value(alloc, here, book, d),
        Expr::Int { pos, text } => Ok(integer(book, *pos, text.as_slice())),
        Expr::Char { pos, text } => Ok(character(book, *pos, text.as_slice())),
        Expr::Str { text, .. } => string(alloc, text.as_slice()),
        Expr::Nil(_) => Ok(Some(Valued::Constant(Value::Nil))),
        Expr::Set { elements, .. } => check_set(alloc, here, book, elements.as_slice()),
        Expr::Paren { inner, .. } => check_bracketed(alloc, here, book, inner.get()),
        Expr::Not { pos, operand } => check_opposite(alloc, here, book, operand.get(), *pos),
        Expr::Signed { sign, pos, operand } => {
            check_signed(alloc, here, book, operand.get(), *sign, *pos)
        }
        Expr::Chain { operand, tails } => {
            let x = check_expr(alloc, here, book, operand.get())?;
            check_tails(alloc, here, book, tails.as_slice(), x)
        }
        Expr::Relate {
            left,
            relation,
            pos,
            right,
        } => {
            let x = check_expr(alloc, here, book, left.get())?;
            check_relation(alloc, here, book, right.get(), *relation, *pos, x)
        }
    }
}

// A designator as a value.
#[cycle(walk)]
fn check_value<S: Surroundings>(
    alloc: Global,
    here: &S,
    book: &mut Notebook,
    d: &Designator,
) -> Result<Option<Valued>, AllocError>
    ensures made { IfOk result (λ r. r ≡ (spec.meant_by InExpression (spec.named_of d.now) (S.around here.now) ▷ λ m. spec.value_meant (spec.named_of d.now).ident.pos m).node) }
    ensures noted { OnOk result (book.new ≡ book_after book.old (spec.meant_by InExpression (spec.named_of d.now) (S.around here.now) ▷ λ m. spec.value_meant (spec.named_of d.now).ident.pos m).notes) }
{
    if d.selectors.as_slice().is_empty() {
        name_value(alloc, here, book, &d.ident.ident())
    } else {
        check_selected(alloc, here, book, d)
    }
}

// A designator as a value, whatever stands behind its name.
#[cycle(walk)]
#[inline(never)]
fn check_selected<S: Surroundings>(
    alloc: Global,
    here: &S,
    book: &mut Notebook,
    d: &Designator,
) -> Result<Option<Valued>, AllocError>
    ensures made { IfOk result (λ r. r ≡ (spec.meant_by InExpression (spec.named_of d.now) (S.around here.now) ▷ λ m. spec.value_meant (spec.named_of d.now).ident.pos m).node) }
    ensures noted { OnOk result (book.new ≡ book_after book.old (spec.meant_by InExpression (spec.named_of d.now) (S.around here.now) ▷ λ m. spec.value_meant (spec.named_of d.now).ident.pos m).notes) }
{
    let m = check_designator(alloc, here, book, Where::InExpression, d)?;
    value_if(alloc, book, d.ident.pos(), m)
}

// A value in round brackets.
#[cycle(walk)]
#[inline(never)]
fn check_bracketed<S: Surroundings>(
    alloc: Global,
    here: &S,
    book: &mut Notebook,
    inner: &Expr,
) -> Result<Option<Valued>, AllocError>
    ensures made { IfOk result (λ r. r ≡ ((spec.phrase_of inner.now).value (S.around here.now) ▷ λ x. sound (spec.bracketed x)).node) }
    ensures noted { OnOk result (book.new ≡ book_after book.old ((spec.phrase_of inner.now).value (S.around here.now) ▷ λ x. sound (spec.bracketed x)).notes) }
{
    let x = check_expr(alloc, here, book, inner)?;
    Ok(bracketed(x))
}

// `~` before a value.
#[cycle(walk)]
#[inline(never)]
fn check_opposite<S: Surroundings>(
    alloc: Global,
    here: &S,
    book: &mut Notebook,
    operand: &Expr,
    at: Pos,
) -> Result<Option<Valued>, AllocError>
    ensures made { IfOk result (λ r. r ≡ ((spec.phrase_of operand.now).value (S.around here.now) ▷ λ x. opposite (map_of (S.around here.now)) at x).node) }
    ensures noted { OnOk result (book.new ≡ book_after book.old ((spec.phrase_of operand.now).value (S.around here.now) ▷ λ x. opposite (map_of (S.around here.now)) at x).notes) }
{
    let x = check_expr(alloc, here, book, operand)?;
    opposite_if(alloc, here, book, at, x)
}

// A sign before a value.
#[cycle(walk)]
#[inline(never)]
fn check_signed<S: Surroundings>(
    alloc: Global,
    here: &S,
    book: &mut Notebook,
    operand: &Expr,
    sign: Sign,
    at: Pos,
) -> Result<Option<Valued>, AllocError>
    ensures made { IfOk result (λ r. r ≡ ((spec.phrase_of operand.now).value (S.around here.now) ▷ λ x. signed (map_of (S.around here.now)) sign at x).node) }
    ensures noted { OnOk result (book.new ≡ book_after book.old ((spec.phrase_of operand.now).value (S.around here.now) ▷ λ x. signed (map_of (S.around here.now)) sign at x).notes) }
{
    let x = check_expr(alloc, here, book, operand)?;
    signed_if(alloc, here, book, sign, at, x)
}

#[cycle(walk)]
#[inline(never)]
fn check_tails<S: Surroundings>(
    alloc: Global,
    here: &S,
    book: &mut Notebook,
    tails: &[Tail],
    first: Option<Valued>,
) -> Result<Option<Valued>, AllocError>
    ensures made { IfOk result (λ r. r ≡ (spec.combine_all (S.around here.now) (map spec.tailed_of tails.now) (plain first)).node) }
    ensures noted { OnOk result (book.new ≡ book_after book.old (spec.combine_all (S.around here.now) (map spec.tailed_of tails.now) (plain first)).notes) }
{
    let mut all = first;
    'tails: for tail in tails {
        let operand = check_expr(alloc, here, book, &tail.operand)?;
        all = combined_if(alloc, here, book, tail.operator, tail.pos, all, operand)?;
    }
    Ok(all)
}

#[cycle(walk)]
#[inline(never)]
fn check_relation<S: Surroundings>(
    alloc: Global,
    here: &S,
    book: &mut Notebook,
    right: &Expr,
    relation: Relation,
    at: Pos,
    x: Option<Valued>,
) -> Result<Option<Valued>, AllocError>
    ensures made { IfOk result (λ r. r ≡ (spec.relation_of (S.around here.now) relation at (plain x) (spec.phrase_of right.now)).node) }
    ensures noted { OnOk result (book.new ≡ book_after book.old (spec.relation_of (S.around here.now) relation at (plain x) (spec.phrase_of right.now)).notes) }
{
    match relation {
        Relation::Is => check_test(alloc, here, book, right, at, x),
        Relation::Equal
        | Relation::NotEqual
        | Relation::Less
        | Relation::LessEqual
        | Relation::Greater
        | Relation::GreaterEqual
        | Relation::In => {
            let y = check_expr(alloc, here, book, right)?;
            related_if(alloc, here, book, relation, at, x, y)
        }
    }
}

#[cycle(walk)]
#[inline(never)]
fn check_test<S: Surroundings>(
    alloc: Global,
    here: &S,
    book: &mut Notebook,
    right: &Expr,
    at: Pos,
    x: Option<Valued>,
) -> Result<Option<Valued>, AllocError>
    ensures made { IfOk result (λ r. r ≡ (spec.is_test (S.around here.now) at (plain x) (spec.phrase_of right.now) (spec.phrase_of right.now).name).node) }
    ensures noted { OnOk result (book.new ≡ book_after book.old (spec.is_test (S.around here.now) at (plain x) (spec.phrase_of right.now) (spec.phrase_of right.now).name).notes) }
{
    match name_in(right) {
        Some(name) => type_test(alloc, here, book, at, x, &name),
        None => {
            let y = check_expr(alloc, here, book, right)?;
            Ok(other_test(here, book, at, x, y))
        }
    }
}

#[cycle(walk)]
#[inline(never)]
fn check_set<S: Surroundings>(
    alloc: Global,
    here: &S,
    book: &mut Notebook,
    elements: &[Element],
) -> Result<Option<Valued>, AllocError>
    ensures made { IfOk result (λ r. r ≡ (set_judged (S.around here.now) elements.now).node) }
    ensures noted { OnOk result (book.new ≡ book_after book.old (set_judged (S.around here.now) elements.now).notes) }
{
    let row = check_elements(alloc, here, book, elements)?;
    set_if(alloc, row)
}

#[cycle(walk)]
fn check_elements<S: Surroundings>(
    alloc: Global,
    here: &S,
    book: &mut Notebook,
    elements: &[Element],
) -> Result<Option<Vec<ElementOf>>, AllocError>
    ensures made { IfOk result (λ r. option_map (λ v. v.items) r ≡ (elements_judged (S.around here.now) elements.now).node) }
    ensures noted { OnOk result (book.new ≡ book_after book.old (elements_judged (S.around here.now) elements.now).notes) }
{
    let mut row = Some(Vec::new(alloc));
    'elements: for element in elements {
        let x = check_element(alloc, here, book, element)?;
        row = row_with(row, x)?;
    }
    Ok(row)
}

#[cycle(walk)]
#[inline(never)]
fn check_element<S: Surroundings>(
    alloc: Global,
    here: &S,
    book: &mut Notebook,
    element: &Element,
) -> Result<Option<ElementOf>, AllocError>
    ensures made { IfOk result (λ r. r ≡ (spec.element_value (S.around here.now) (spec.ranged_of element.now)).node) }
    ensures noted { OnOk result (book.new ≡ book_after book.old (spec.element_value (S.around here.now) (spec.ranged_of element.now)).notes) }
{
    let low = check_expr(alloc, here, book, &element.low)?;
    let high = check_high(alloc, here, book, &element.high)?;
    element_if(alloc, here, book, start_of(&element.low), low, high)
}

#[cycle(walk)]
#[inline(never)]
fn check_high<S: Surroundings>(
    alloc: Global,
    here: &S,
    book: &mut Notebook,
    high: &Option<Expr>,
) -> Result<Option<Option<Valued>>, AllocError>
    ensures made { IfOk result (λ r. r ≡ (spec.value_if (S.around here.now) (option_map spec.phrase_of high.now)).node) }
    ensures noted { OnOk result (book.new ≡ book_after book.old (spec.value_if (S.around here.now) (option_map spec.phrase_of high.now)).notes) }
{
    match high {
        None => Ok(Some(None)),
        Some(high) => {
            let x = check_expr(alloc, here, book, high)?;
            Ok(there(x))
        }
    }
}

/// The constant that an expression is: none where it breaks a rule, rule 10 where it is no constant
/// too. What is broken, and what it names, is noted in the book.
pub fn check_constant<S: Surroundings>(
    alloc: Global,
    here: &S,
    book: &mut Notebook,
    e: &Expr,
) -> Result<Option<Value>, AllocError>
    ensures made { IfOk result (λ r. r ≡ (spec.constant_value (S.around here.now) (spec.phrase_of e.now)).node) }
    ensures noted { OnOk result (book.new ≡ book_after book.old (spec.constant_value (S.around here.now) (spec.phrase_of e.now)).notes) }
{
    let before = book.set_aside();
    let x = check_expr(alloc, here, book, e)?;
    let quiet = book.is_quiet();
    book.put_back(before);
    Ok(constant_if(book, start_of(e), x, quiet))
}
