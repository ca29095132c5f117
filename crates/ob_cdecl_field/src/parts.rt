//! The parts of types that hold no other type.

#![tactic(auto, using(ob_rules::proofs::BookLaws::after_none, ob_rules::proofs::BookLaws::after_joined))]

ghost use Rattle.std.specs.Prelude.{◌≡◌, IfOk, OnOk, Some, None};
ghost use Rattle.std.specs.Option.{option_map};
ghost use Rattle.ob_cdecl_scopes.specs.Scopes.{around_of};
ghost use Rattle.ob_rules.specs.Books.{book_after};
ghost use Rattle.ob_rules.specs.Judged.{◌▷◌};
ghost use Rattle.ob_rules.specs.Names.{map_of, type_named};
ghost use Rattle.ob_rules.specs.Types as spec;
ghost use Rattle.ob_cdecl_field.specs.Makes.{typing_of};

use crate::made::Typed;
use crate::nodes::first_of;
use ob_cdecl_scopes::{Imports, Scope};
use ob_cexpr_name::{is_array, is_open, is_record, record_of, type_named};
use ob_rules::{Notebook, Rule, Surroundings};
use ob_tree::{Ident, List, Pos, Qualident};
use ob_types::TypeRef;
use std::alloc::{AllocError, Global};

// Rule 13.
fn named_typing<E: Imports>(
    alloc: Global,
    scope: &Scope<'_, E>,
    book: &mut Notebook,
    at: Pos,
    open_ok: bool,
    of: TypeRef,
) -> Option<Typed>
    ensures made { option_map typing_of result ≡ (spec.named_typing (around_of E.types scope.now) at open_ok of).node }
    ensures noted { book.new ≡ book_after book.old (spec.named_typing (around_of E.types scope.now) at open_ok of).notes }
{
    if !open_ok && is_open(scope, &of) {
        book.breaks(Rule::MisplacedOpenArray, at);
        return None;
    }
    Some(Typed {
        of,
        made: List::new(alloc),
    })
}

/// The type that a name stands for, where it names one.
pub fn named_type<E: Imports>(
    alloc: Global,
    scope: &Scope<'_, E>,
    book: &mut Notebook,
    name: &Qualident,
    open_ok: bool,
) -> Result<Option<Typed>, AllocError>
    ensures made { IfOk result (λ r. option_map typing_of r ≡ (type_named (around_of E.types scope.now) name.now ▷ spec.named_typing (around_of E.types scope.now) (spec.first_of name.now) open_ok).node) }
    ensures noted { OnOk result (book.new ≡ book_after book.old (type_named (around_of E.types scope.now) name.now ▷ spec.named_typing (around_of E.types scope.now) (spec.first_of name.now) open_ok).notes) }
{
    match type_named(alloc, scope, book, name)? {
        None => Ok(None),
        Some(of) => Ok(named_typing(alloc, scope, book, first_of(name), open_ok, of)),
    }
}

// Rule 14.
fn base_of<E: Imports>(
    scope: &Scope<'_, E>,
    book: &mut Notebook,
    at: Pos,
    of: TypeRef,
) -> Option<TypeRef>
    ensures made { result ≡ (spec.base_of (map_of (around_of E.types scope.now)) at of).node }
    ensures noted { book.new ≡ book_after book.old (spec.base_of (map_of (around_of E.types scope.now)) at of).notes }
{
    if is_record(scope, &of) {
        Some(of)
    } else {
        book.breaks(Rule::UnfitBase, at);
        None
    }
}

fn base_named<E: Imports>(
    alloc: Global,
    scope: &Scope<'_, E>,
    book: &mut Notebook,
    name: &Qualident,
) -> Result<Option<TypeRef>, AllocError>
    ensures made { IfOk result (λ r. r ≡ (type_named (around_of E.types scope.now) name.now ▷ spec.base_of (map_of (around_of E.types scope.now)) (spec.first_of name.now)).node) }
    ensures noted { OnOk result (book.new ≡ book_after book.old (type_named (around_of E.types scope.now) name.now ▷ spec.base_of (map_of (around_of E.types scope.now)) (spec.first_of name.now)).notes) }
{
    match type_named(alloc, scope, book, name)? {
        None => Ok(None),
        Some(of) => Ok(base_of(scope, book, first_of(name), of)),
    }
}

/// The base of a record, where it has one.
pub fn base_if<E: Imports>(
    alloc: Global,
    scope: &Scope<'_, E>,
    book: &mut Notebook,
    name: &Option<Qualident>,
) -> Result<Option<Option<TypeRef>>, AllocError>
    ensures made { IfOk result (λ r. r ≡ (spec.base_if (around_of E.types scope.now) name.now).node) }
    ensures noted { OnOk result (book.new ≡ book_after book.old (spec.base_if (around_of E.types scope.now) name.now).notes) }
{
    match name {
        None => Ok(Some(None)),
        Some(name) => match base_named(alloc, scope, book, name)? {
            None => Ok(None),
            Some(of) => Ok(Some(Some(of))),
        },
    }
}

// Rule 17.
fn result_fits<E: Imports>(
    scope: &Scope<'_, E>,
    book: &mut Notebook,
    at: Pos,
    of: TypeRef,
) -> Option<Option<TypeRef>>
    ensures made { result ≡ (spec.result_fits (around_of E.types scope.now) at of).node }
    ensures noted { book.new ≡ book_after book.old (spec.result_fits (around_of E.types scope.now) at of).notes }
{
    if is_array(scope, &of) || is_record(scope, &of) {
        book.breaks(Rule::StructuredResult, at);
        None
    } else {
        Some(Some(of))
    }
}

/// The result of a procedure, where it has one.
pub fn result_of<E: Imports>(
    alloc: Global,
    scope: &Scope<'_, E>,
    book: &mut Notebook,
    name: &Option<Qualident>,
) -> Result<Option<Option<TypeRef>>, AllocError>
    ensures made { IfOk result (λ r. r ≡ (spec.result_of (around_of E.types scope.now) name.now).node) }
    ensures noted { OnOk result (book.new ≡ book_after book.old (spec.result_of (around_of E.types scope.now) name.now).notes) }
{
    match name {
        None => Ok(Some(None)),
        Some(name) => match type_named(alloc, scope, book, name)? {
            None => Ok(None),
            Some(of) => Ok(result_fits(scope, book, first_of(name), of)),
        },
    }
}

fn later_alone<E: Imports>(scope: &Scope<'_, E>, x: &Ident) -> Option<Ident>
    ensures { result ≡ spec.later_by (around_of E.types scope.now) None x.now }
{
    if scope.declares_type(&x.name) && !scope.is_declared(&x.name) {
        Some(*x)
    } else {
        None
    }
}

/// The name, where it is that of a type of the scope that is declared later.
pub fn later_type<E: Imports>(scope: &Scope<'_, E>, name: &Option<Qualident>) -> Option<Ident>
    ensures { result ≡ spec.is_later (around_of E.types scope.now) name.now }
{
    match name {
        None => None,
        Some(name) => match &name.qualifier {
            None => later_alone(scope, &name.ident),
            Some(_) => None,
        },
    }
}
