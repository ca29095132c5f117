//! The length of an array.

#![tactic(auto, using(ob_rules::proofs::BookLaws::after_none, ob_rules::proofs::BookLaws::after_joined))]

ghost use Rattle.std.specs.Prelude.{◌≡◌, IfOk, OnOk};
ghost use Rattle.ob_cdecl_scopes.specs.Scopes.{around_of};
ghost use Rattle.ob_rules.specs.Books.{book_after};
ghost use Rattle.ob_rules.specs.Expressions.{phrase_of};
ghost use Rattle.ob_rules.specs.Types as spec;

use ob_cdecl_scopes::{Imports, Scope};
use ob_cexpr_trait::{CheckExpr, start_of};
use ob_rules::{Notebook, Rule};
use ob_tree::{Expr, Pos};
use ob_types::Value;
use std::alloc::{AllocError, Global};

// Rule 12.
fn length_of(book: &mut Notebook, at: Pos, value: &Value) -> Option<u32>
    ensures made { result ≡ (spec.length_of at value.now).node }
    ensures noted { book.new ≡ book_after book.old (spec.length_of at value.now).notes }
{
    match value {
        Value::Int(n) => {
            if *n >= 1 {
                Some(n.cast_unsigned())
            } else {
                book.breaks(Rule::UnfitLength, at);
                None
            }
        }
        Value::Bool(_) | Value::Char(_) | Value::Set(_) | Value::Str(_) | Value::Nil => {
            book.breaks(Rule::UnfitLength, at);
            None
        }
    }
}

/// The length of an array.
pub fn array_length<E: Imports, C: CheckExpr>(
    alloc: Global,
    checker: &C,
    scope: &Scope<'_, E>,
    book: &mut Notebook,
    e: &Expr,
) -> Result<Option<u32>, AllocError>
    ensures made { IfOk result (λ r. r ≡ (spec.array_length (around_of E.types scope.now) (phrase_of e.now)).node) }
    ensures noted { OnOk result (book.new ≡ book_after book.old (spec.array_length (around_of E.types scope.now) (phrase_of e.now)).notes) }
{
    match checker.check_constant(alloc, scope, book, e)? {
        None => Ok(None),
        Some(value) => Ok(length_of(book, start_of(e), &value)),
    }
}
