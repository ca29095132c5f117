//! Fields, and bound procedures that are selected.

ghost use Rattle.std.specs.Prelude.{◌≡◌, IfOk, OnOk, Some, None, bytes_eq};
ghost use Rattle.std.specs.Option.{option_copied, option_map};
ghost use Rattle.std.specs.List.{list_any};
ghost use Rattle.ob_rules.specs.Books.{book_after};
ghost use Rattle.ob_rules.specs.Judged as judged;
ghost use Rattle.ob_rules.specs.Names as names;
ghost use Rattle.ob_rules.specs.Names.{map_of};
ghost use Rattle.ob_rules.specs.Phrases as phrases;
ghost use Rattle.ob_rules.specs.Designators as spec;
ghost use Rattle.ob_rules.specs.Shapes as shapes;
ghost use Rattle.ob_cexpr_name.specs.Members.{member_seen};
ghost use Rattle.ob_tree.specs.declared.pos.Pos.{Pos as APos};

use crate::places::{dereferenced, pointed_type};
use ob_cexpr_name::{
    Member, extends_record, find_member, is_held, pointed_record, record_of, types,
};
use ob_rules::{Chosen, Coming, Entity, Meant, Notebook, Place, Rule, Surroundings};
use ob_tree::{CompactName, Ident, Mark, Name, Pos, QName};
use ob_types::{Field, Receiver, TypeRef, Types};
use ob_types_trees::{DesignatorTree, copy_name, copy_type};
use std::alloc::{AllocError, Global};

/// The place itself, or what it points to.
pub fn through(
    alloc: Global,
    at: Pos,
    place: Place,
    pointed: Option<TypeRef>,
) -> Result<Place, AllocError>
    ensures { IfOk result (λ r. r ≡ phrases.record_receiver at place pointed) }
{
    match pointed {
        None => Ok(place),
        Some(t) => dereferenced(alloc, place, at, t, false),
    }
}

fn is_read_only(mark: Mark) -> bool
    ensures { result ≡ spec.is_read_only mark }
{
    match mark {
        Mark::ReadOnly => true,
        Mark::Hidden | Mark::Full => false,
    }
}

fn field_of<S: Surroundings>(
    alloc: Global,
    here: &S,
    place: Place,
    owner: QName,
    field: Field,
) -> Result<Place, AllocError>
    ensures { IfOk result (λ r. r ≡ spec.field_of (S.around here.now) place owner field) }
{
    let unit = here.unit();
    let foreign = owner.module.as_bytes() != unit.as_bytes();
    let read_only = place.read_only;
    let Field { name, mark, of, .. } = field;
    let more = copy_type(&of)?;
    let name = CompactName::of(alloc, &name)?;
    let (designator, root) = place.into_rooted();
    let designator = DesignatorTree::field(alloc, designator, owner, name, more)?;
    Ok(Place {
        designator,
        of,
        root,
        selected: true,
        read_only: read_only || (is_read_only(mark) && foreign),
        var_record: false,
        guarded: false,
    })
}

// The record that a receiver of that kind and type is for.
fn received_record<'a, T: Types>(types: &'a T, is_var: bool, t: &'a TypeRef) -> Option<&'a QName>
    ensures { option_copied result ≡ shapes.received_record (T.types types.now) is_var t.now }
{
    if is_var {
        record_of(types, t)
    } else {
        pointed_record(types, t)
    }
}

fn extends_own<S: Surroundings>(here: &S, owner: &QName, name: &QName) -> Result<bool, AllocError>
    ensures { IfOk result (λ r. r ≡ spec.is_of (S.around here.now) owner.now (Some name.now)) }
{
    if name.module.as_bytes() == here.unit().as_bytes() {
        extends_record(types(here), owner, name)
    } else {
        Ok(false)
    }
}

fn is_of<S: Surroundings>(
    here: &S,
    owner: &QName,
    record: Option<&QName>,
) -> Result<bool, AllocError>
    ensures { IfOk result (λ r. r ≡ spec.is_of (S.around here.now) owner.now (option_copied record.entry)) }
{
    match record {
        None => Ok(false),
        Some(name) => extends_own(here, owner, name),
    }
}

fn comes_of_type<S: Surroundings>(
    here: &S,
    owner: &QName,
    is_var: bool,
    t: &TypeRef,
) -> Result<bool, AllocError>
    ensures { IfOk result (λ r. r ≡ spec.is_of (S.around here.now) owner.now (shapes.received_record (map_of (S.around here.now)) is_var t.now)) }
{
    is_of(here, owner, received_record(types(here), is_var, t))
}

fn comes_of<S: Surroundings>(
    here: &S,
    owner: &QName,
    is_var: bool,
    entity: &Entity,
) -> Result<bool, AllocError>
    ensures { IfOk result (λ r. r ≡ spec.comes_of (S.around here.now) owner.now is_var entity.now) }
{
    match entity {
        Entity::TypeName(t) => comes_of_type(here, owner, is_var, t),
        Entity::Constant(_)
        | Entity::Variable(_, _)
        | Entity::Procedure(_, _)
        | Entity::Forward(_, _)
        | Entity::Module(_)
        | Entity::Predeclared(_)
        | Entity::LeftOut
        | Entity::Unsound => Ok(false),
    }
}

fn comes_for<S: Surroundings>(here: &S, owner: &QName, coming: &Coming) -> Result<bool, AllocError>
    ensures { IfOk result (λ r. r ≡ spec.comes_for (S.around here.now) owner.now (names.find_name (S.around here.now).known coming.now.owner) coming.now) }
{
    match here.known(&coming.owner) {
        None => Ok(here.declares_type(&coming.owner)),
        Some(known) => comes_of(here, owner, coming.is_var, &known.what),
    }
}

fn comes_as<S: Surroundings>(
    here: &S,
    owner: &QName,
    name: &Name,
    coming: &Coming,
) -> Result<bool, AllocError>
    ensures { IfOk result (λ r. r ≡ spec.comes_as (S.around here.now) owner.now name.now coming.now) }
{
    if coming.name.as_bytes() == name.as_bytes() {
        comes_for(here, owner, coming)
    } else {
        Ok(false)
    }
}

// Whether the text has a bound procedure of that name further on, for the record or a base of it.
fn comes<S: Surroundings>(here: &S, owner: &QName, name: &Name) -> Result<bool, AllocError>
    ensures { IfOk result (λ r. r ≡ spec.comes (S.around here.now) owner.now name.now) }
{
    'coming: for coming in here.coming() {
        if comes_as(here, owner, name, coming)? {
            return Ok(true);
        }
    }
    Ok(false)
}

fn not_there(book: &mut Notebook, comes: bool, last: bool, start: Pos, x: &Ident) -> Option<Meant>
    ensures made { result ≡ (spec.not_there comes last start x.now).node }
    ensures noted { book.new ≡ book_after book.old (spec.not_there comes last start x.now).notes }
{
    if !comes {
        book.breaks(Rule::NotDeclared, x.pos);
    } else if last {
        book.breaks(Rule::UnfitProcedureValue, start);
    }
    None
}

fn select_bound(book: &mut Notebook, at: Pos, pointer: bool, chosen: Chosen) -> Option<Meant>
    ensures made { result ≡ (spec.select_bound at pointer chosen).node }
    ensures noted { book.new ≡ book_after book.old (spec.select_bound at pointer chosen).notes }
{
    match chosen.method.receiver {
        Receiver::Record => Some(Meant::Bound(chosen)),
        Receiver::Pointer => {
            if pointer {
                Some(Meant::Bound(chosen))
            } else {
                book.breaks(Rule::UnfitSelector, at);
                None
            }
        }
    }
}

fn member_found<S: Surroundings>(
    alloc: Global,
    here: &S,
    book: &mut Notebook,
    start: Pos,
    at: Pos,
    place: Place,
    pointed: Option<TypeRef>,
    owner: QName,
    found: Member,
) -> Result<Option<Meant>, AllocError>
    ensures made { IfOk result (λ r. r ≡ (spec.member_found (S.around here.now) start at place (phrases.record_receiver at place pointed) pointed owner (member_seen found)).node) }
    ensures noted { OnOk result (book.new ≡ book_after book.old (spec.member_found (S.around here.now) start at place (phrases.record_receiver at place pointed) pointed owner (member_seen found)).notes) }
{
    match found {
        Member::Field(declares, field) => {
            let place = through(alloc, at, place, pointed)?;
            let place = field_of(alloc, here, place, declares, field)?;
            Ok(Some(Meant::Place(place)))
        }
        Member::Method(introduced, method) => {
            let pointer = pointed.is_some();
            let chosen = Chosen {
                receiver: place,
                start,
                pointed,
                owner,
                introduced,
                method,
                base: None,
            };
            Ok(select_bound(book, at, pointer, chosen))
        }
    }
}

fn member_in<S: Surroundings>(
    alloc: Global,
    here: &S,
    owner: &QName,
    name: &Name,
) -> Result<Option<Member>, AllocError>
    ensures { IfOk result (λ r. option_map member_seen r ≡ shapes.member (map_of (S.around here.now)) owner.now name.now) }
{
    find_member(alloc, types(here), owner, name)
}

fn member_of<S: Surroundings>(
    alloc: Global,
    here: &S,
    book: &mut Notebook,
    start: Pos,
    at: Pos,
    x: &Ident,
    place: Place,
    pointed: Option<TypeRef>,
    last: bool,
    owner: QName,
) -> Result<Option<Meant>, AllocError>
    ensures made { IfOk result (λ r. r ≡ (spec.member_of (S.around here.now) start at x.now place (phrases.record_receiver at place pointed) pointed owner last (shapes.member (map_of (S.around here.now)) owner x.now.name)).node) }
    ensures noted { OnOk result (book.new ≡ book_after book.old (spec.member_of (S.around here.now) start at x.now place (phrases.record_receiver at place pointed) pointed owner last (shapes.member (map_of (S.around here.now)) owner x.now.name)).notes) }
{
    match member_in(alloc, here, &owner, &x.name)? {
        None => {
            let comes = comes(here, &owner, &x.name)?;
            Ok(not_there(book, comes, last, start, x))
        }
        Some(found) => { member_found(alloc, here, book, start, at, place, pointed, owner, found) }
    }
}

fn type_behind<'a>(place: &'a Place, pointed: &'a Option<TypeRef>) -> &'a TypeRef
    ensures { (at : APos) → result.now ≡ (phrases.record_receiver at place.now pointed.now).of }
{
    match pointed {
        None => &place.of,
        Some(t) => t,
    }
}

fn record_in<S: Surroundings>(
    here: &S,
    place: &Place,
    pointed: &Option<TypeRef>,
) -> Result<Option<QName>, AllocError>
    ensures { (at : APos) → IfOk result (λ r. r ≡ shapes.record_of (map_of (S.around here.now)) (phrases.record_receiver at place.now pointed.now).of) }
{
    match record_of(types(here), type_behind(place, pointed)) {
        None => Ok(None),
        Some(name) => {
            let name = copy_name(name)?;
            Ok(Some(name))
        }
    }
}

fn select_of<S: Surroundings>(
    alloc: Global,
    here: &S,
    book: &mut Notebook,
    start: Pos,
    at: Pos,
    x: &Ident,
    place: Place,
    pointed: Option<TypeRef>,
    last: bool,
) -> Result<Option<Meant>, AllocError>
    ensures made { IfOk result (λ r. r ≡ (spec.select_of (S.around here.now) start at x.now place (phrases.record_receiver at place pointed) pointed last (shapes.record_of (map_of (S.around here.now)) (phrases.record_receiver at place pointed).of)).node) }
    ensures noted { OnOk result (book.new ≡ book_after book.old (spec.select_of (S.around here.now) start at x.now place (phrases.record_receiver at place pointed) pointed last (shapes.record_of (map_of (S.around here.now)) (phrases.record_receiver at place pointed).of)).notes) }
{
    match record_in(here, &place, &pointed)? {
        None => {
            book.breaks(Rule::UnfitSelector, at);
            Ok(None)
        }
        Some(owner) => member_of(alloc, here, book, start, at, x, place, pointed, last, owner),
    }
}

fn is_there<S: Surroundings>(here: &S, pointed: &Option<TypeRef>) -> bool
    ensures { result ≡ spec.is_there (map_of (S.around here.now)) pointed.now }
{
    match pointed {
        None => true,
        Some(t) => is_held(types(here), t),
    }
}

fn pointed_in<S: Surroundings>(here: &S, t: &TypeRef) -> Result<Option<TypeRef>, AllocError>
    ensures { IfOk result (λ r. r ≡ shapes.pointed (map_of (S.around here.now)) t.now) }
{
    pointed_type(types(here), t)
}

/// A name behind a variable and a dot: a field, or a bound procedure. `last` says that no selector
/// stands behind it. None where it breaks rule 2, 22 or 39.
#[tactic(auto, using(crate::proofs::ThroughLaws::select_there, crate::proofs::ThroughLaws::select_gone, ob_rules::proofs::BookLaws::after_none))]
pub fn select<S: Surroundings>(
    alloc: Global,
    here: &S,
    book: &mut Notebook,
    start: Pos,
    at: Pos,
    x: &Ident,
    place: Place,
    last: bool,
) -> Result<Option<Meant>, AllocError>
    ensures made { IfOk result (λ r. r ≡ (spec.select (S.around here.now) start at x.now place last).node) }
    ensures noted { OnOk result (book.new ≡ book_after book.old (spec.select (S.around here.now) start at x.now place last).notes) }
{
    let pointed = pointed_in(here, &place.of)?;
    if is_there(here, &pointed) {
        select_of(alloc, here, book, start, at, x, place, pointed, last)
    } else {
        Ok(None)
    }
}
