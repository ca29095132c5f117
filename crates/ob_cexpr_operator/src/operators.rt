//! Operators.

ghost use Rattle.std.specs.Prelude.{◌≡◌, IfOk, OnOk};
ghost use Rattle.ob_tree.specs.declared.expr.Sign.TheVariants as sign;
ghost use Rattle.ob_types.specs.declared.typed.Binary.TheVariants as binary;
ghost use Rattle.ob_rules.specs.Books.{book_after};
ghost use Rattle.ob_rules.specs.Operators as spec;

use crate::kinds::{are, integers};
use crate::nodes::{dyadic, logical, monadic, only_value};
use ob_cexpr_name::{is, width};
use ob_rules::{Notebook, Rule, Valued};
use ob_tree::{Operator, Pos, Sign};
use ob_types::{Basic, Binary, Connective, Types, Unary, Width};
use std::alloc::{AllocError, Global};

fn sets(are: bool, op: Binary) -> Option<Binary>
    ensures { result ≡ spec.if_are are op }
{
    if are { Some(op) } else { None }
}

fn added(width: Option<Width>, both_sets: bool) -> Option<Binary>
    ensures { result ≡ spec.integers_or_sets width both_sets binary.Add binary.Union }
{
    match width {
        Some(width) => Some(Binary::Add(width)),
        None => sets(both_sets, Binary::Union),
    }
}

fn subtracted(width: Option<Width>, both_sets: bool) -> Option<Binary>
    ensures { result ≡ spec.integers_or_sets width both_sets binary.Subtract binary.Difference }
{
    match width {
        Some(width) => Some(Binary::Subtract(width)),
        None => sets(both_sets, Binary::Difference),
    }
}

fn multiplied(width: Option<Width>, both_sets: bool) -> Option<Binary>
    ensures { result ≡ spec.integers_or_sets width both_sets binary.Multiply binary.Intersection }
{
    match width {
        Some(width) => Some(Binary::Multiply(width)),
        None => sets(both_sets, Binary::Intersection),
    }
}

fn divided(width: Option<Width>) -> Option<Binary>
    ensures { result ≡ spec.of_integers width binary.Quotient }
{
    match width {
        Some(width) => Some(Binary::Quotient(width)),
        None => None,
    }
}

fn remaining(width: Option<Width>) -> Option<Binary>
    ensures { result ≡ spec.of_integers width binary.Remainder }
{
    match width {
        Some(width) => Some(Binary::Remainder(width)),
        None => None,
    }
}

// The operation that the operator means for these operands.
fn binary_of<T: Types>(types: &T, op: Operator, a: &Valued, b: &Valued) -> Option<Binary>
    ensures { result ≡ spec.binary_of (T.types types.now) op a.now b.now }
{
    match op {
        Operator::Add => added(integers(types, a, b), are(types, Basic::Set, a, b)),
        Operator::Subtract => subtracted(integers(types, a, b), are(types, Basic::Set, a, b)),
        Operator::Multiply => multiplied(integers(types, a, b), are(types, Basic::Set, a, b)),
        Operator::Divide => sets(are(types, Basic::Set, a, b), Binary::SymmetricDifference),
        Operator::Quotient => divided(integers(types, a, b)),
        Operator::Remainder => remaining(integers(types, a, b)),
        Operator::Or => None,
        Operator::And => None,
    }
}

// The operation, if there is one; rule 21 where there is none.
fn operation(
    alloc: Global,
    book: &mut Notebook,
    op: Option<Binary>,
    at: Pos,
    a: Valued,
    b: Valued,
) -> Result<Option<Valued>, AllocError>
    ensures made { IfOk result (λ r. r ≡ (spec.if_fit op at (λ o. spec.dyadic o at a b)).node) }
    ensures noted { OnOk result (book.new ≡ book_after book.old (spec.if_fit op at (λ o. spec.dyadic o at a b)).notes) }
{
    match op {
        None => {
            book.breaks(Rule::UnfitOperands, at);
            Ok(None)
        }
        Some(op) => dyadic(alloc, book, op, at, a, b),
    }
}

fn connected(
    alloc: Global,
    book: &mut Notebook,
    truths: bool,
    op: Connective,
    at: Pos,
    a: Valued,
    b: Valued,
) -> Result<Option<Valued>, AllocError>
    ensures made { IfOk result (λ r. r ≡ (spec.connected truths op at a b).node) }
    ensures noted { OnOk result (book.new ≡ book_after book.old (spec.connected truths op at a b).notes) }
{
    if truths {
        logical(alloc, book, op, at, a, b)
    } else {
        book.breaks(Rule::UnfitOperands, at);
        Ok(None)
    }
}

/// An operator between terms or factors, with its operands. Rules 21 and 11.
pub fn combined<T: Types>(
    alloc: Global,
    types: &T,
    book: &mut Notebook,
    op: Operator,
    at: Pos,
    a: Valued,
    b: Valued,
) -> Result<Option<Valued>, AllocError>
    ensures made { IfOk result (λ r. r ≡ (spec.combined (T.types types.now) op at a b).node) }
    ensures noted { OnOk result (book.new ≡ book_after book.old (spec.combined (T.types types.now) op at a b).notes) }
{
    match op {
        Operator::Or => {
            let truths = are(types, Basic::Boolean, &a, &b);
            connected(alloc, book, truths, Connective::Or, at, a, b)
        }
        Operator::And => {
            let truths = are(types, Basic::Boolean, &a, &b);
            connected(alloc, book, truths, Connective::And, at, a, b)
        }
        Operator::Add
        | Operator::Subtract
        | Operator::Multiply
        | Operator::Divide
        | Operator::Quotient
        | Operator::Remainder => {
            let operator = binary_of(types, op, &a, &b);
            operation(alloc, book, operator, at, a, b)
        }
    }
}

/// `~` with its operand. Rules 21 and 11.
pub fn opposite<T: Types>(
    alloc: Global,
    types: &T,
    book: &mut Notebook,
    at: Pos,
    x: Valued,
) -> Result<Option<Valued>, AllocError>
    ensures made { IfOk result (λ r. r ≡ (spec.opposite (T.types types.now) at x).node) }
    ensures noted { OnOk result (book.new ≡ book_after book.old (spec.opposite (T.types types.now) at x).notes) }
{
    if is(types, Basic::Boolean, &x) {
        monadic(alloc, book, Unary::Not, at, x)
    } else {
        book.breaks(Rule::UnfitOperands, at);
        Ok(None)
    }
}

fn plus(book: &mut Notebook, width: Option<Width>, set: bool, at: Pos, x: Valued) -> Option<Valued>
    ensures made { result ≡ (spec.signed_as sign.Plus width set at x).node }
    ensures noted { book.new ≡ book_after book.old (spec.signed_as sign.Plus width set at x).notes }
{
    match width {
        Some(_) => Some(only_value(x)),
        None => {
            book.breaks(Rule::UnfitOperands, at);
            None
        }
    }
}

fn minus(
    alloc: Global,
    book: &mut Notebook,
    width: Option<Width>,
    set: bool,
    at: Pos,
    x: Valued,
) -> Result<Option<Valued>, AllocError>
    ensures made { IfOk result (λ r. r ≡ (spec.signed_as sign.Minus width set at x).node) }
    ensures noted { OnOk result (book.new ≡ book_after book.old (spec.signed_as sign.Minus width set at x).notes) }
{
    match width {
        Some(width) => monadic(alloc, book, Unary::Negate(width), at, x),
        None => {
            if set {
                monadic(alloc, book, Unary::Complement, at, x)
            } else {
                book.breaks(Rule::UnfitOperands, at);
                Ok(None)
            }
        }
    }
}

/// A sign with its operand. Rules 21 and 11.
pub fn signed<T: Types>(
    alloc: Global,
    types: &T,
    book: &mut Notebook,
    mark: Sign,
    at: Pos,
    x: Valued,
) -> Result<Option<Valued>, AllocError>
    ensures made { IfOk result (λ r. r ≡ (spec.signed (T.types types.now) mark at x).node) }
    ensures noted { OnOk result (book.new ≡ book_after book.old (spec.signed (T.types types.now) mark at x).notes) }
{
    let width = width(types, &x);
    let set = is(types, Basic::Set, &x);
    match mark {
        Sign::Plus => Ok(plus(book, width, set, at, x)),
        Sign::Minus => minus(alloc, book, width, set, at, x),
    }
}
