//! Relations, but IS.

ghost use Rattle.std.specs.Prelude.{◌≡◌, IfOk, OnOk};
ghost use Rattle.ob_rules.specs.Books.{book_after};
ghost use Rattle.ob_rules.specs.Operators as spec;

use crate::kinds::{are, are_pointers, are_procedures, integers, is_text};
use crate::nodes::{dyadic, texts};
use ob_cexpr_name::{is, is_integer};
use ob_rules::{Notebook, Rule, Valued};
use ob_tree::{Pos, Relation};
use ob_types::{Basic, Binary, Compared, Comparison, Types};
use std::alloc::{AllocError, Global};

fn comparison_of(relation: Relation) -> Option<Comparison>
    ensures { result ≡ spec.comparison_of relation }
{
    match relation {
        Relation::Equal => Some(Comparison::Equal),
        Relation::NotEqual => Some(Comparison::NotEqual),
        Relation::Less => Some(Comparison::Less),
        Relation::LessEqual => Some(Comparison::LessEqual),
        Relation::Greater => Some(Comparison::Greater),
        Relation::GreaterEqual => Some(Comparison::GreaterEqual),
        Relation::In | Relation::Is => None,
    }
}

fn is_equality(comparison: Comparison) -> bool
    ensures { result ≡ spec.is_equality comparison }
{
    match comparison {
        Comparison::Equal | Comparison::NotEqual => true,
        Comparison::Less | Comparison::LessEqual | Comparison::Greater | Comparison::GreaterEqual =>
            false,
    }
}

fn choose(holds: bool, first: Compared, rest: Option<Compared>) -> Option<Compared>
    ensures { result ≡ spec.choose holds first rest }
{
    if holds { Some(first) } else { rest }
}

// What an equality or an order compares, but strings.
fn compared_as<T: Types>(types: &T, equality: bool, a: &Valued, b: &Valued) -> Option<Compared>
    ensures { result ≡ spec.compared_as (T.types types.now) equality a.now b.now }
{
    let procedures = choose(
        equality && are_procedures(types, a, b),
        Compared::Procedure,
        None,
    );
    let pointers = choose(
        equality && are_pointers(types, a, b),
        Compared::Pointer,
        procedures,
    );
    let sets = choose(
        equality && are(types, Basic::Set, a, b),
        Compared::Set,
        pointers,
    );
    let truths = choose(
        equality && are(types, Basic::Boolean, a, b),
        Compared::Boolean,
        sets,
    );
    let characters = choose(are(types, Basic::Char, a, b), Compared::Char, truths);
    choose(
        integers(types, a, b).is_some(),
        Compared::Integer,
        characters,
    )
}

fn compare_as(
    alloc: Global,
    book: &mut Notebook,
    compared: Option<Compared>,
    both_texts: bool,
    comparison: Comparison,
    at: Pos,
    a: Valued,
    b: Valued,
) -> Result<Option<Valued>, AllocError>
    ensures made { IfOk result (λ r. r ≡ (spec.compare_as compared both_texts comparison at a b).node) }
    ensures noted { OnOk result (book.new ≡ book_after book.old (spec.compare_as compared both_texts comparison at a b).notes) }
{
    match compared {
        Some(compared) => {
            let op = Binary::Compare(comparison, compared);
            dyadic(alloc, book, op, at, a, b)
        }
        None => {
            if both_texts {
                texts(alloc, book, comparison, at, a, b)
            } else {
                book.breaks(Rule::UnfitOperands, at);
                Ok(None)
            }
        }
    }
}

fn contained(
    alloc: Global,
    book: &mut Notebook,
    fit: bool,
    at: Pos,
    a: Valued,
    b: Valued,
) -> Result<Option<Valued>, AllocError>
    ensures made { IfOk result (λ r. r ≡ (spec.contained fit at a b).node) }
    ensures noted { OnOk result (book.new ≡ book_after book.old (spec.contained fit at a b).notes) }
{
    if fit {
        dyadic(alloc, book, Binary::In, at, a, b)
    } else {
        book.breaks(Rule::UnfitOperands, at);
        Ok(None)
    }
}

fn compare<T: Types>(
    alloc: Global,
    types: &T,
    book: &mut Notebook,
    comparison: Option<Comparison>,
    at: Pos,
    a: Valued,
    b: Valued,
) -> Result<Option<Valued>, AllocError>
    ensures made { IfOk result (λ r. r ≡ (spec.compare (T.types types.now) comparison at a b).node) }
    ensures noted { OnOk result (book.new ≡ book_after book.old (spec.compare (T.types types.now) comparison at a b).notes) }
{
    match comparison {
        Some(comparison) => {
            let compared = compared_as(types, is_equality(comparison), &a, &b);
            let both_texts = is_text(types, &a) && is_text(types, &b);
            compare_as(alloc, book, compared, both_texts, comparison, at, a, b)
        }
        None => {
            let fit = is_integer(types, &a) && is(types, Basic::Set, &b);
            contained(alloc, book, fit, at, a, b)
        }
    }
}

/// A relation but IS, with its operands; IS is taken for IN. Rules 21 and 11.
pub fn related<T: Types>(
    alloc: Global,
    types: &T,
    book: &mut Notebook,
    relation: Relation,
    at: Pos,
    a: Valued,
    b: Valued,
) -> Result<Option<Valued>, AllocError>
    ensures made { IfOk result (λ r. r ≡ (spec.related (T.types types.now) relation at a b).node) }
    ensures noted { OnOk result (book.new ≡ book_after book.old (spec.related (T.types types.now) relation at a b).notes) }
{
    compare(alloc, types, book, comparison_of(relation), at, a, b)
}
