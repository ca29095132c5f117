//! Pointer types, where their base is judged.

#![tactic(auto, using(ob_rules::proofs::BookLaws::after_none, ob_rules::proofs::BookLaws::after_joined))]

ghost use Rattle.std.specs.Prelude.{◌≡◌, ◌∷◌, [], ◌++◌, IfOk, OnOk, Some, None, false};
ghost use Rattle.std.specs.Option.{option_map};
ghost use Rattle.ob_cdecl_scopes.specs.Scopes.{around_of};
ghost use Rattle.ob_rules.specs.Books.{book_after};
ghost use Rattle.ob_rules.specs.Names.{map_of};
ghost use Rattle.ob_rules.specs.Shapes.{is_structured, is_pointer as points};
ghost use Rattle.ob_rules.specs.Types as spec;
ghost use Rattle.ob_cdecl_field.specs.Makes.{typing_of};
ghost use Rattle.ob_cdecl_type.specs.Nested.{later_named, pointer_later};

use ob_cdecl_field::{Typed, add_types, typed_as};
use ob_cdecl_scopes::{Imports, Scope};
use ob_cexpr_name::{is_array, is_pointer, is_record};
use ob_rules::{Later, Notebook, Rule, Surroundings};
use ob_tree::{CompactName, Ident, List, Mark, ObjName, Pos, QName};
use ob_types::{Desc, TypeRef, TypedType};
use ob_types_trees::copy_type;
use std::alloc::{AllocError, Global};

// What the base of a pointer is.
#[derive(Clone, Copy)]
struct Kinds {
    structured: bool,
    pointer: bool,
}

fn kinds_of<E: Imports>(scope: &Scope<'_, E>, of: &TypeRef) -> Kinds
    ensures structured { result.structured ≡ is_structured (map_of (around_of E.types scope.now)) of.now }
    ensures pointer { result.pointer ≡ points (map_of (around_of E.types scope.now)) of.now }
{
    Kinds {
        structured: is_array(scope, of) || is_record(scope, of),
        pointer: is_pointer(scope, of),
    }
}

// What a type is among the types that it makes.
#[tactic(auto, using(ob_cdecl_field::proofs::Cuts::types_cut))]
fn kinds_with<E: Imports>(
    alloc: Global,
    scope: &mut Scope<'_, E>,
    of: &TypeRef,
    made: &[TypedType],
) -> Result<Kinds, AllocError>
    ensures structured { IfOk result (λ r. r.structured ≡ is_structured (map_of (spec.with_types (around_of E.types scope.old) made.now)) of.now) }
    ensures pointer { IfOk result (λ r. r.pointer ≡ points (map_of (spec.with_types (around_of E.types scope.old) made.now)) of.now) }
    ensures stays { OnOk result (around_of E.types scope.new ≡ around_of E.types scope.old) }
{
    let mark = scope.mark();
    add_types(alloc, scope, made)?;
    let kinds = kinds_of(&*scope, of);
    scope.cut_types(mark);
    Ok(kinds)
}

// Rule 15.
fn base_judged(
    alloc: Global,
    book: &mut Notebook,
    name: &[u8],
    inline: bool,
    at: Pos,
    kinds: Kinds,
    t: Typed,
) -> Result<Option<Typed>, AllocError>
    ensures made { IfOk result (λ r. option_map typing_of r ≡ (spec.base_judged name.now inline at kinds.structured kinds.pointer (typing_of t)).node) }
    ensures noted { OnOk result (book.new ≡ book_after book.old (spec.base_judged name.now inline at kinds.structured kinds.pointer (typing_of t)).notes) }
{
    if kinds.structured {
        return Ok(Some(t));
    }
    if kinds.pointer {
        let pointer = ObjName::new(alloc, name)?;
        let base = copy_type(&t.of)?;
        book.judge_later(Later::PointsTo {
            pointer,
            at,
            base,
            inline,
        })?;
        return Ok(Some(t));
    }
    book.breaks(Rule::UnfitPointerBase, at);
    Ok(None)
}

/// A pointer's base, where it is a type; `at` is its first symbol, and `inline` says whether it is
/// written at its place.
pub fn pointer_base<E: Imports>(
    alloc: Global,
    scope: &mut Scope<'_, E>,
    book: &mut Notebook,
    name: &[u8],
    inline: bool,
    at: Pos,
    t: Typed,
) -> Result<Option<Typed>, AllocError>
    ensures made { IfOk result (λ r. option_map typing_of r ≡ (spec.pointer_base (around_of E.types scope.old) name.now inline at (typing_of t)).node) }
    ensures noted { OnOk result (book.new ≡ book_after book.old (spec.pointer_base (around_of E.types scope.old) name.now inline at (typing_of t)).notes) }
    ensures stays { OnOk result (around_of E.types scope.new ≡ around_of E.types scope.old) }
{
    let kinds = kinds_with(alloc, scope, &t.of, t.made.as_slice())?;
    base_judged(alloc, book, name, inline, at, kinds, t)
}

/// The pointer type of that name and mark, to that type.
pub fn pointer_to<E: Imports>(
    alloc: Global,
    scope: &Scope<'_, E>,
    name: &[u8],
    mark: Mark,
    t: Typed,
) -> Result<Typed, AllocError>
    ensures { IfOk result (λ r. typing_of r ≡ spec.pointer_to (around_of E.types scope.now) name.now mark (typing_of t)) }
{
    let Typed { of, made } = t;
    typed_as(alloc, scope, name, Desc::Pointer(mark, of), made)
}

// The type of that name that the scope declares later.
fn coming_type<E: Imports>(
    alloc: Global,
    scope: &Scope<'_, E>,
    x: &Ident,
) -> Result<TypeRef, AllocError>
    ensures { IfOk result (λ r. r ≡ later_named (around_of E.types scope.now) x.now) }
{
    let mut name = Vec::from_slice(alloc, scope.path())?;
    name.extend_from_slice(x.name.as_bytes())?;
    let object = ObjName::new(alloc, &name)?;
    Ok(TypeRef::Named(QName {
        module: CompactName::of(alloc, &scope.unit())?,
        object,
    }))
}

/// The pointer type of that name and mark, to the type that the scope declares later.
pub fn later_pointer<E: Imports>(
    alloc: Global,
    scope: &Scope<'_, E>,
    book: &mut Notebook,
    name: &[u8],
    mark: Mark,
    x: &Ident,
) -> Result<Typed, AllocError>
    ensures made { IfOk result (λ r. Some (typing_of r) ≡ (pointer_later (around_of E.types scope.now) name.now mark x.now).node) }
    ensures noted { OnOk result (book.new ≡ book_after book.old (pointer_later (around_of E.types scope.now) name.now mark x.now).notes) }
{
    let base = coming_type(alloc, scope, x)?;
    let pointer = ObjName::new(alloc, name)?;
    book.judge_later(Later::PointsTo {
        pointer,
        at: x.pos,
        base,
        inline: false,
    })?;
    let of = coming_type(alloc, scope, x)?;
    pointer_to(
        alloc,
        scope,
        name,
        mark,
        Typed {
            of,
            made: List::new(alloc),
        },
    )
}
