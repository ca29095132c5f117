//! Types, as they are declared.

#![tactic(auto, using(ob_rules::proofs::BookLaws::after_none, ob_rules::proofs::BookLaws::after_joined))]

ghost use Rattle.std.specs.Prelude.{◌≡◌, ◌++◌, IfOk, OnOk, false};
ghost use Rattle.std.specs.Option.{option_map};
ghost use Rattle.ob_cdecl_scopes.specs.Scopes.{around_of};
ghost use Rattle.ob_rules.specs.declared.entity.Entity.TheVariants as entity;
ghost use Rattle.ob_rules.specs.Books.{book_after, empty_book};
ghost use Rattle.ob_rules.specs.Judged.{Notes, made, paired};
ghost use Rattle.ob_rules.specs.Types.{written, with_types};
ghost use Rattle.ob_rules.specs.Headings.{mark_or_hidden};
ghost use Rattle.ob_rules.specs.Declarations as spec;
ghost use Rattle.ob_cdecl_field.specs.Makes.{typing_of};
ghost use Rattle.ob_cdecl.specs.Seen.{contents_of, holds_types};
ghost use Rattle.ob_cdecl.specs.Order.{type_around};

use crate::books::{append_notes, take_later};
use crate::contents::Contents;
use crate::decls::declare_new;
use ob_cdecl_field::{Typed, add_types, name_of, typed_as};
use ob_cdecl_scopes::{Imports, Scope};
use ob_cdecl_type::{check_mark, check_type};
use ob_cexpr_trait::CheckExpr;
use ob_rules::{Entity, Notebook, Surroundings};
use ob_tree::{Ident, IdentDef, Mark, Name, ObjName, TypeNode};
use ob_types::Desc;
use std::alloc::{AllocError, Global};

/// No mark where the mark breaks a rule.
pub fn mark_or_hidden(mark: Option<Mark>) -> Mark
    ensures { result ≡ mark_or_hidden mark }
{
    match mark {
        None => Mark::Hidden,
        Some(mark) => mark,
    }
}

/// The name in the module of an object of the innermost scope.
pub fn object_name<E: Imports>(
    alloc: Global,
    scope: &Scope<'_, E>,
    name: &Name,
) -> Result<ObjName, AllocError>
    ensures { IfOk result (λ r. r ≡ (around_of E.types scope.now).path ++ name.now) }
{
    let mut all = Vec::from_slice(alloc, scope.path())?;
    all.extend_from_slice(name.as_bytes())?;
    ObjName::new(alloc, &all)
}

// A type that is equated to another one's name.
fn equated<E: Imports>(
    alloc: Global,
    scope: &Scope<'_, E>,
    name: &[u8],
    mark: Mark,
    t: Typed,
) -> Result<Typed, AllocError>
    ensures { IfOk result (λ r. typing_of r ≡ spec.equated (around_of E.types scope.now) name.now mark (typing_of t)) }
{
    let Typed { of, made } = t;
    typed_as(alloc, scope, name, Desc::Alias(mark, of), made)
}

fn equated_type<E: Imports, C: CheckExpr>(
    alloc: Global,
    checker: &C,
    scope: &mut Scope<'_, E>,
    book: &mut Notebook,
    name: &[u8],
    mark: Mark,
    node: &TypeNode,
) -> Result<Option<Typed>, AllocError>
    ensures made { IfOk result (λ r. option_map typing_of r ≡ (made (spec.equated (around_of E.types scope.old) name.now mark) ((written node.now).typing (around_of E.types scope.old) name.now mark false)).node) }
    ensures noted { OnOk result (book.new ≡ book_after book.old (made (spec.equated (around_of E.types scope.old) name.now mark) ((written node.now).typing (around_of E.types scope.old) name.now mark false)).notes) }
    ensures stays { OnOk result (around_of E.types scope.new ≡ around_of E.types scope.old) }
{
    match check_type(alloc, checker, scope, book, node, name, mark, false)? {
        None => Ok(None),
        Some(t) => {
            let equal = equated(alloc, &*scope, name, mark, t)?;
            Ok(Some(equal))
        }
    }
}

fn typing_as<E: Imports, C: CheckExpr>(
    alloc: Global,
    checker: &C,
    scope: &mut Scope<'_, E>,
    book: &mut Notebook,
    name: &[u8],
    mark: Mark,
    node: &TypeNode,
) -> Result<Option<Typed>, AllocError>
    ensures made { IfOk result (λ r. option_map typing_of r ≡ (spec.typing_as (around_of E.types scope.old) name.now mark (written node.now) (written node.now).name).node) }
    ensures noted { OnOk result (book.new ≡ book_after book.old (spec.typing_as (around_of E.types scope.old) name.now mark (written node.now) (written node.now).name).notes) }
    ensures stays { OnOk result (around_of E.types scope.new ≡ around_of E.types scope.old) }
{
    match name_of(node) {
        None => check_type(alloc, checker, scope, book, node, name, mark, false),
        Some(_) => equated_type(alloc, checker, scope, book, name, mark, node),
    }
}

// From here on the type of that name is known, and the types that it makes are there.
fn declare_sound<E: Imports>(
    alloc: Global,
    scope: &mut Scope<'_, E>,
    book: &mut Notebook,
    contents: &mut Contents,
    x: &Ident,
    t: Typed,
) -> Result<(), AllocError>
    ensures around { OnOk result (around_of E.types scope.new ≡ spec.declare (with_types (around_of E.types scope.old) t.made) x.now (entity.TypeName t.of)) }
    ensures noted { OnOk result (book.new ≡ book_after book.old (spec.twice (around_of E.types scope.old) x.now)) }
    ensures added { OnOk result (contents_of contents.new ≡ spec.together (contents_of contents.old) (holds_types t.made)) }
{
    let Typed { of, made } = t;
    add_types(alloc, scope, made.as_slice())?;
    contents.add_types(made)?;
    declare_new(alloc, scope, book, x, Entity::TypeName(of))
}

#[tactic(auto, using(crate::proofs::ContentsLaws::adds_nothing))]
fn declare_type<E: Imports>(
    alloc: Global,
    scope: &mut Scope<'_, E>,
    book: &mut Notebook,
    contents: &mut Contents,
    x: &Ident,
    mark: Option<Mark>,
    t: Option<Typed>,
) -> Result<(), AllocError>
    ensures around { OnOk result (around_of E.types scope.new ≡ spec.declare (with_types (around_of E.types scope.old) (spec.types_made (paired mark (option_map typing_of t)))) x.now (spec.type_entity (paired mark (option_map typing_of t)))) }
    ensures noted { OnOk result (book.new ≡ book_after book.old (spec.twice (around_of E.types scope.old) x.now)) }
    ensures added { OnOk result (contents_of contents.new ≡ spec.together (contents_of contents.old) (holds_types (spec.types_made (paired mark (option_map typing_of t))))) }
{
    match mark {
        None => declare_new(alloc, scope, book, x, Entity::Unsound),
        Some(_) => match t {
            None => declare_new(alloc, scope, book, x, Entity::Unsound),
            Some(t) => declare_sound(alloc, scope, book, contents, x, t),
        },
    }
}

// The mark of a type whose name is new in the scope.
fn new_mark<E: Imports>(scope: &Scope<'_, E>, book: &mut Notebook, d: &IdentDef) -> Option<Mark>
    ensures made { result ≡ (spec.newly (around_of E.types scope.now) d.now).node }
    ensures noted { book.new ≡ book_after book.old (spec.newly (around_of E.types scope.now) d.now).notes }
{
    let mark = check_mark(scope, book, false, d);
    if scope.is_known_in_scope(&d.ident.name) {
        None
    } else {
        mark
    }
}

// A type whose name is not new leaves nothing for later.
#[tactic(auto, using(crate::proofs::BookJoins::forgets, crate::proofs::BookJoins::remembers))]
fn forget_later<E: Imports>(alloc: Global, scope: &Scope<'_, E>, notes: &mut Notebook, x: &Ident)
    ensures { (n : Notes) → notes.old ≡ book_after empty_book n → notes.new ≡ book_after empty_book (spec.of_new (around_of E.types scope.now) x.now n) }
{
    if scope.is_known_in_scope(&x.name) {
        let _ = take_later(alloc, notes);
    }
}

// What is said of a type is noted.
fn keep_notes<E: Imports>(
    alloc: Global,
    scope: &Scope<'_, E>,
    book: &mut Notebook,
    x: &Ident,
    notes: Notebook,
) -> Result<(), AllocError>
    ensures { (n : Notes) → notes ≡ book_after empty_book n → OnOk result (book.new ≡ book_after book.old (spec.of_new (around_of E.types scope.now) x.now n)) }
{
    let mut notes = notes;
    forget_later(alloc, scope, &mut notes, x);
    append_notes(book, notes)
}

fn type_judged<E: Imports, C: CheckExpr>(
    alloc: Global,
    checker: &C,
    scope: &mut Scope<'_, E>,
    book: &mut Notebook,
    contents: &mut Contents,
    d: &IdentDef,
    node: &TypeNode,
) -> Result<(), AllocError>
    ensures around { OnOk result (around_of E.types scope.new ≡ type_around d.now (written node.now) (around_of E.types scope.old)) }
    ensures noted { OnOk result (book.new ≡ book_after book.old (spec.type_declared d.now (written node.now) (around_of E.types scope.old)).part.notes) }
    ensures added { OnOk result (contents_of contents.new ≡ spec.together (contents_of contents.old) (spec.type_declared d.now (written node.now) (around_of E.types scope.old)).part.contents) }
{
    let mut notes = Notebook::new(alloc);
    let mark = new_mark(&*scope, &mut notes, d);
    let name = object_name(alloc, &*scope, &d.ident.name)?;
    let t = typing_as(
        alloc,
        checker,
        scope,
        &mut notes,
        name.as_bytes(),
        mark_or_hidden(mark),
        node,
    )?;
    keep_notes(alloc, &*scope, book, &d.ident, notes)?;
    declare_type(alloc, scope, book, contents, &d.ident, mark, t)
}

/// The declaration of a type: from here on it is known.
pub fn type_declared<E: Imports, C: CheckExpr>(
    alloc: Global,
    checker: &C,
    scope: &mut Scope<'_, E>,
    book: &mut Notebook,
    contents: &mut Contents,
    d: &IdentDef,
    node: &TypeNode,
) -> Result<(), AllocError>
    ensures around { OnOk result (around_of E.types scope.new ≡ (spec.type_declared d.now (written node.now) (around_of E.types scope.old)).around) }
    ensures noted { OnOk result (book.new ≡ book_after book.old (spec.type_declared d.now (written node.now) (around_of E.types scope.old)).part.notes) }
    ensures added { OnOk result (contents_of contents.new ≡ spec.together (contents_of contents.old) (spec.type_declared d.now (written node.now) (around_of E.types scope.old)).part.contents) }
{
    type_judged(alloc, checker, scope, book, contents, d, node)
}
