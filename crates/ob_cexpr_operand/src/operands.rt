//! Operators over operands that are judged, and noted, already. Nothing is said of an operator where
//! one of its operands breaks a rule.

ghost use Rattle.std.specs.Prelude.{◌≡◌, IfOk, OnOk};
ghost use Rattle.ob_rules.specs.Books.{book_after};
ghost use Rattle.ob_rules.specs.Judged as judged;
ghost use Rattle.ob_rules.specs.Names.{map_of};
ghost use Rattle.ob_rules.specs.Operators as operators;
ghost use Rattle.ob_rules.specs.Expressions as spec;

use ob_cexpr_name::types;
use ob_cexpr_operator::{combined, opposite, related, signed};
use ob_rules::{Notebook, Place, Surroundings, Valued};
use ob_tree::{Operator, Pos, Relation, Sign};
use std::alloc::{AllocError, Global};

/// `~` before a value.
#[inline(never)]
pub fn opposite_if<S: Surroundings>(
    alloc: Global,
    here: &S,
    book: &mut Notebook,
    at: Pos,
    x: Option<Valued>,
) -> Result<Option<Valued>, AllocError>
    ensures made { IfOk result (λ r. r ≡ (judged.if_sound x (λ v. operators.opposite (map_of (S.around here.now)) at v)).node) }
    ensures noted { OnOk result (book.new ≡ book_after book.old (judged.if_sound x (λ v. operators.opposite (map_of (S.around here.now)) at v)).notes) }
{
    match x {
        None => Ok(None),
        Some(x) => opposite(alloc, types(here), book, at, x),
    }
}

/// A sign before a value.
#[inline(never)]
pub fn signed_if<S: Surroundings>(
    alloc: Global,
    here: &S,
    book: &mut Notebook,
    sign: Sign,
    at: Pos,
    x: Option<Valued>,
) -> Result<Option<Valued>, AllocError>
    ensures made { IfOk result (λ r. r ≡ (judged.if_sound x (λ v. operators.signed (map_of (S.around here.now)) sign at v)).node) }
    ensures noted { OnOk result (book.new ≡ book_after book.old (judged.if_sound x (λ v. operators.signed (map_of (S.around here.now)) sign at v)).notes) }
{
    match x {
        None => Ok(None),
        Some(x) => signed(alloc, types(here), book, sign, at, x),
    }
}

/// An operator between two operands.
#[inline(never)]
pub fn combined_if<S: Surroundings>(
    alloc: Global,
    here: &S,
    book: &mut Notebook,
    operator: Operator,
    at: Pos,
    x: Option<Valued>,
    y: Option<Valued>,
) -> Result<Option<Valued>, AllocError>
    ensures made { IfOk result (λ r. r ≡ (judged.if_sound (judged.paired x y) (λ p. operators.combined (map_of (S.around here.now)) operator at p.0 p.1)).node) }
    ensures noted { OnOk result (book.new ≡ book_after book.old (judged.if_sound (judged.paired x y) (λ p. operators.combined (map_of (S.around here.now)) operator at p.0 p.1)).notes) }
{
    match x {
        None => Ok(None),
        Some(x) => match y {
            None => Ok(None),
            Some(y) => combined(alloc, types(here), book, operator, at, x, y),
        },
    }
}

/// A relation, but IS, of two operands.
#[inline(never)]
pub fn related_if<S: Surroundings>(
    alloc: Global,
    here: &S,
    book: &mut Notebook,
    relation: Relation,
    at: Pos,
    x: Option<Valued>,
    y: Option<Valued>,
) -> Result<Option<Valued>, AllocError>
    ensures made { IfOk result (λ r. r ≡ (judged.if_sound (judged.paired x y) (λ p. operators.related (map_of (S.around here.now)) relation at p.0 p.1)).node) }
    ensures noted { OnOk result (book.new ≡ book_after book.old (judged.if_sound (judged.paired x y) (λ p. operators.related (map_of (S.around here.now)) relation at p.0 p.1)).notes) }
{
    match x {
        None => Ok(None),
        Some(x) => match y {
            None => Ok(None),
            Some(y) => related(alloc, types(here), book, relation, at, x, y),
        },
    }
}

/// A value in round brackets, which is no variable that is tested or passed.
#[inline(never)]
pub fn bracketed(x: Option<Valued>) -> Option<Valued>
    ensures { result ≡ (judged.if_sound x (λ v. judged.sound (spec.bracketed v))).node }
{
    match x {
        None => None,
        Some(Valued::Place(place)) => {
            let mut place = place;
            place.var_record = false;
            Some(Valued::Place(place))
        }
        Some(Valued::Constant(value)) => Some(Valued::Constant(value)),
        Some(Valued::Node(node)) => Some(Valued::Node(node)),
    }
}
