//! Guards.

ghost use Rattle.std.specs.Prelude.{◌≡◌, IfOk, OnOk, Some};
ghost use Rattle.std.specs.Option.{option_copied};
ghost use Rattle.ob_rules.specs.Books.{book_after};
ghost use Rattle.ob_rules.specs.Judged as judged;
ghost use Rattle.ob_rules.specs.Names.{map_of};
ghost use Rattle.ob_rules.specs.Designators as spec;
ghost use Rattle.ob_rules.specs.Shapes as shapes;

use ob_cexpr_name::{extends_record, pointed_record, record_of, types};
use ob_rules::{Meant, Notebook, Place, Rule, Surroundings};
use ob_tree::{Pos, QName};
use ob_types::{Guarded, TypeRef, Types};
use ob_types_trees::{DesignatorTree, copy_name, copy_type};
use std::alloc::{AllocError, Global};

fn if_so<T: Types>(
    types: &T,
    guarded: Guarded,
    of: &QName,
    to: &QName,
) -> Result<Option<(Guarded, QName)>, AllocError>
    ensures { IfOk result (λ r. r ≡ spec.if_so (shapes.extends_record (T.types types.now) to.now of.now) (guarded, to.now)) }
{
    if extends_record(types, to, of)? {
        let target = copy_name(to)?;
        Ok(Some((guarded, target)))
    } else {
        Ok(None)
    }
}

/// The guard for the record type `to` on a variable whose record type is `of`: there where both are
/// and `to` extends `of`.
pub fn if_extends<T: Types>(
    types: &T,
    guarded: Guarded,
    of: Option<&QName>,
    to: Option<&QName>,
) -> Result<Option<(Guarded, QName)>, AllocError>
    ensures { IfOk result (λ r. r ≡ spec.if_extends (T.types types.now) guarded (option_copied of.entry) (option_copied to.entry)) }
{
    match of {
        None => Ok(None),
        Some(of) => match to {
            None => Ok(None),
            Some(to) => if_so(types, guarded, of, to),
        },
    }
}

fn on_record<T: Types>(
    types: &T,
    place: &Place,
    t: &TypeRef,
) -> Result<Option<(Guarded, QName)>, AllocError>
    ensures { IfOk result (λ r. r ≡ spec.on_record place.now.var_record (T.types types.now) place.now t.now) }
{
    if place.var_record {
        if_extends(
            types,
            Guarded::Record,
            record_of(types, &place.of),
            record_of(types, t),
        )
    } else {
        Ok(None)
    }
}

/// What a guard of that type on the variable stands on, and the record type that it tests for. None
/// where the guard does not fit.
pub fn guard_of<T: Types>(
    types: &T,
    place: &Place,
    t: &TypeRef,
) -> Result<Option<(Guarded, QName)>, AllocError>
    ensures { IfOk result (λ r. r ≡ spec.guard_of (T.types types.now) place.now t.now) }
{
    match pointed_record(types, &place.of) {
        Some(of) => if_extends(types, Guarded::Pointer, Some(of), pointed_record(types, t)),
        None => on_record(types, place, t),
    }
}

fn is_pointer_guard(guarded: Guarded) -> bool
    ensures { result ≡ spec.is_pointer_guard guarded }
{
    match guarded {
        Guarded::Pointer => true,
        Guarded::Record => false,
    }
}

/// The guarded variable.
pub fn guarded_by(
    alloc: Global,
    place: Place,
    by: (Guarded, QName),
    t: TypeRef,
    at: Pos,
    written: bool,
) -> Result<Place, AllocError>
    ensures { IfOk result (λ r. r ≡ spec.guarded_by place by t at written) }
{
    let (guarded, target) = by;
    let selected = place.selected;
    let read_only = place.read_only;
    let var_record = place.var_record;
    let of = copy_type(&t)?;
    let (designator, root) = place.into_rooted();
    let designator = DesignatorTree::guard(alloc, designator, guarded, target, at, of)?;
    Ok(Place {
        designator,
        of: t,
        root,
        selected: selected || written,
        read_only,
        var_record,
        guarded: is_pointer_guard(guarded),
    })
}

fn guard_if<T: Types>(
    alloc: Global,
    types: &T,
    book: &mut Notebook,
    at: Pos,
    place: Place,
    t: TypeRef,
) -> Result<Option<Meant>, AllocError>
    ensures made { IfOk result (λ r. r ≡ (spec.guard (T.types types.now) at place t).node) }
    ensures noted { OnOk result (book.new ≡ book_after book.old (spec.guard (T.types types.now) at place t).notes) }
{
    match guard_of(types, &place, &t)? {
        None => {
            book.breaks(Rule::UnfitTypeTest, at);
            Ok(None)
        }
        Some(by) => {
            let place = guarded_by(alloc, place, by, t, at, true)?;
            Ok(Some(Meant::Place(place)))
        }
    }
}

/// A guard of that type that is written behind a variable. None where it breaks rule 23.
pub fn guard<S: Surroundings>(
    alloc: Global,
    here: &S,
    book: &mut Notebook,
    at: Pos,
    place: Place,
    t: TypeRef,
) -> Result<Option<Meant>, AllocError>
    ensures made { IfOk result (λ r. r ≡ (spec.guard (map_of (S.around here.now)) at place t).node) }
    ensures noted { OnOk result (book.new ≡ book_after book.old (spec.guard (map_of (S.around here.now)) at place t).notes) }
{
    guard_if(alloc, types(here), book, at, place, t)
}
