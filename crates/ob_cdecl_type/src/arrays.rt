//! Array types, where their lengths and their element are judged.

#![tactic(auto, using(ob_rules::proofs::BookLaws::after_none, ob_rules::proofs::BookLaws::after_joined))]

ghost use Rattle.std.specs.Prelude.{◌≡◌, IfOk, OnOk, map};
ghost use Rattle.std.specs.Option.{option_map};
ghost use Rattle.ob_tree.specs.declared.ident.Mark.TheVariants as mark_is;
ghost use Rattle.ob_cdecl_scopes.specs.Scopes.{around_of};
ghost use Rattle.ob_rules.specs.Books.{book_after};
ghost use Rattle.ob_rules.specs.Judged.{notes_of};
ghost use Rattle.ob_rules.specs.Expressions.{phrase_of};
ghost use Rattle.ob_rules.specs.Types as spec;
ghost use Rattle.ob_cdecl_field.specs.Makes.{typing_of};
ghost use Rattle.ob_cdecl_type.specs.Nested.{array_judged, arrays, deep_name, lengths_in};

use crate::lengths::array_length;
use ob_cdecl_field::{Typed, element_name, typed_as};
use ob_cdecl_scopes::{Imports, Scope};
use ob_cexpr_trait::CheckExpr;
use ob_rules::Notebook;
use ob_tree::{Expr, Mark, ObjName};
use ob_types::Desc;
use std::alloc::{AllocError, Global};

/// The lengths of an array, in order.
pub fn lengths_of<E: Imports, C: CheckExpr>(
    alloc: Global,
    checker: &C,
    scope: &Scope<'_, E>,
    book: &mut Notebook,
    lengths: &[Expr],
) -> Result<Vec<Option<u32>>, AllocError>
    ensures made { IfOk result (λ r. r.items ≡ lengths_in (around_of E.types scope.now) (map phrase_of lengths.now)) }
    ensures noted { OnOk result (book.new ≡ book_after book.old (notes_of (map (spec.array_length (around_of E.types scope.now)) (map phrase_of lengths.now)))) }
{
    let mut all = Vec::new(alloc);
    'lengths: for e in lengths {
        let length = array_length(alloc, checker, scope, book, e)?;
        all.push(length)?;
    }
    Ok(all)
}

/// The name of the element behind so many lengths.
pub fn inner_name(alloc: Global, name: &[u8], lengths: &[Expr]) -> Result<ObjName, AllocError>
    ensures { IfOk result (λ r. r ≡ deep_name name.now (map phrase_of lengths.now)) }
{
    let mut all = Vec::from_slice(alloc, name)?;
    let mut rest = lengths;
    'lengths: while let [_, more @ ..] = rest {
        all.push(b'[')?;
        rest = more;
    }
    ObjName::new(alloc, &all)
}

/// An array of fixed length, where its length and its element are judged.
pub fn array_of<E: Imports>(
    alloc: Global,
    scope: &Scope<'_, E>,
    name: &[u8],
    mark: Mark,
    length: Option<u32>,
    of: Option<Typed>,
) -> Result<Option<Typed>, AllocError>
    ensures { IfOk result (λ r. option_map typing_of r ≡ (array_judged (around_of E.types scope.now) name.now mark length (option_map typing_of of)).node) }
{
    match length {
        None => Ok(None),
        Some(length) => match of {
            None => Ok(None),
            Some(t) => {
                let Typed { of, made } = t;
                let array = typed_as(alloc, scope, name, Desc::Array(mark, length, of), made)?;
                Ok(Some(array))
            }
        },
    }
}

/// Arrays of arrays of those lengths, in order, with that element.
pub fn arrays_of<E: Imports>(
    alloc: Global,
    scope: &Scope<'_, E>,
    name: &[u8],
    lengths: &[Option<u32>],
    of: Option<Typed>,
) -> Result<Option<Typed>, AllocError>
    ensures { IfOk result (λ r. option_map typing_of r ≡ arrays (around_of E.types scope.now) name.now lengths.now (option_map typing_of of)) }
{
    match lengths {
        [] => Ok(of),
        [first, rest @ ..] => {
            let inner = element_name(alloc, name)?;
            let element = arrays_of(alloc, scope, inner.as_bytes(), rest, of)?;
            array_of(alloc, scope, name, Mark::Hidden, *first, element)
        }
    }
}
