//! Variables, dereferences and indices.

ghost use Rattle.std.specs.Prelude.{◌≡◌, IfOk, OnOk, Some, None};
ghost use Rattle.std.specs.Option.{option_copied, option_map};
ghost use Rattle.ob_rules.specs.Books.{book_after};
ghost use Rattle.ob_rules.specs.Judged as judged;
ghost use Rattle.ob_rules.specs.Names.{map_of};
ghost use Rattle.ob_rules.specs.Phrases as phrases;
ghost use Rattle.ob_rules.specs.Designators as spec;
ghost use Rattle.ob_rules.specs.Shapes as shapes;

use crate::guards::{guard_of, guarded_by};
use ob_cexpr_name::{array_of, is_array, is_held, is_integer, pointed, tree_of, types};
use ob_rules::{Meant, Notebook, Place, Rule, Surroundings, Valued};
use ob_tree::Pos;
use ob_types::{Passing, TypeRef, Types, Variable};
use ob_types_trees::{DesignatorTree, copy_type, copy_variable};
use std::alloc::{AllocError, Global};

fn is_var_record(variable: &Variable) -> bool
    ensures { result ≡ spec.is_var_record variable.now }
{
    matches!(variable, Variable::Parameter(Passing::VariableRecord, _))
}

fn variable_at(variable: &Variable, t: &TypeRef, read_only: bool) -> Result<Place, AllocError>
    ensures { IfOk result (λ r. r ≡ spec.variable_at variable.now t.now read_only) }
{
    let of = copy_type(t)?;
    let more = copy_type(t)?;
    let root = copy_variable(variable)?;
    let front = copy_variable(variable)?;
    Ok(Place {
        designator: DesignatorTree::variable(front, more),
        of,
        root,
        selected: false,
        read_only,
        var_record: is_var_record(variable),
        guarded: false,
    })
}

/// Whether both are the same variable.
pub fn same_variable(v: &Variable, w: &Variable) -> bool
    ensures { result ≡ spec.same_variable v.now w.now }
{
    match v {
        Variable::Module { module, name } => match w {
            Variable::Module {
                module: other,
                name: another,
            } => module.as_bytes() == other.as_bytes() && name.as_bytes() == another.as_bytes(),
            Variable::Local(_) | Variable::Parameter(_, _) => false,
        },
        Variable::Local(name) => match w {
            Variable::Local(another) => name.as_bytes() == another.as_bytes(),
            Variable::Module { .. } | Variable::Parameter(_, _) => false,
        },
        Variable::Parameter(_, name) => match w {
            Variable::Parameter(_, another) => name.as_bytes() == another.as_bytes(),
            Variable::Module { .. } | Variable::Local(_) => false,
        },
    }
}

// With one more guard of WITH, which leaves the name unknown where it breaks a rule.
fn with_guard<T: Types>(
    alloc: Global,
    types: &T,
    at: Pos,
    place: Place,
    t: &TypeRef,
) -> Result<Option<Place>, AllocError>
    ensures { IfOk result (λ r. record { node = r; notes = judged.no_notes } ≡ spec.with_guard (T.types types.now) at place (spec.guard_of (T.types types.now) place t.now) t.now) }
{
    match guard_of(types, &place, t)? {
        None => Ok(None),
        Some(by) => {
            let of = copy_type(t)?;
            let place = guarded_by(alloc, place, by, of, at, false)?;
            Ok(Some(place))
        }
    }
}

fn guard_if<T: Types>(
    alloc: Global,
    types: &T,
    at: Pos,
    place: Place,
    t: &Option<TypeRef>,
) -> Result<Option<Place>, AllocError>
    ensures { IfOk result (λ r. record { node = r; notes = judged.no_notes } ≡ spec.guard_if (T.types types.now) at place t.now) }
{
    match t {
        None => Ok(None),
        Some(t) => with_guard(alloc, types, at, place, t),
    }
}

fn guard_same<T: Types>(
    alloc: Global,
    types: &T,
    same: bool,
    at: Pos,
    place: Option<Place>,
    t: &Option<TypeRef>,
) -> Result<Option<Place>, AllocError>
    ensures { IfOk result (λ r. record { node = r; notes = judged.no_notes } ≡ spec.guard_same same (T.types types.now) at (record { node = place; notes = judged.no_notes }) t.now) }
{
    if !same {
        return Ok(place);
    }
    match place {
        None => Ok(None),
        Some(place) => guard_if(alloc, types, at, place, t),
    }
}

fn with_guards<T: Types>(
    alloc: Global,
    types: &T,
    guards: &[(Variable, Option<TypeRef>)],
    at: Pos,
    variable: &Variable,
    place: Place,
) -> Result<Option<Place>, AllocError>
    ensures { IfOk result (λ r. record { node = r; notes = judged.no_notes } ≡ spec.with_guards (T.types types.now) at variable.now guards.now (judged.sound place)) }
{
    let mut guarded = Some(place);
    'guards: for guard in guards {
        let same = same_variable(variable, &guard.0);
        guarded = guard_same(alloc, types, same, at, guarded, &guard.1)?;
    }
    Ok(guarded)
}

/// The variable where it is named, with the guards that WITH adds to it. None where one of them
/// breaks a rule.
pub fn variable_named<S: Surroundings>(
    alloc: Global,
    here: &S,
    at: Pos,
    variable: &Variable,
    t: &TypeRef,
    read_only: bool,
) -> Result<Option<Place>, AllocError>
    ensures { IfOk result (λ r. record { node = r; notes = judged.no_notes } ≡ spec.variable_named (S.around here.now) at variable.now t.now read_only) }
{
    let place = variable_at(variable, t, read_only)?;
    with_guards(alloc, types(here), here.guards(), at, variable, place)
}

/// What a place of a pointer type points to, dereferenced.
pub fn dereferenced(
    alloc: Global,
    place: Place,
    at: Pos,
    t: TypeRef,
    written: bool,
) -> Result<Place, AllocError>
    ensures { IfOk result (λ r. r ≡ phrases.dereferenced place at t written) }
{
    let selected = place.selected;
    let of = copy_type(&t)?;
    let (designator, root) = place.into_rooted();
    let designator = DesignatorTree::deref(alloc, designator, at, of)?;
    Ok(Place {
        designator,
        of: t,
        root,
        selected: selected || written,
        read_only: false,
        var_record: false,
        guarded: false,
    })
}

/// What a pointer type points to.
pub fn pointed_type<T: Types>(types: &T, t: &TypeRef) -> Result<Option<TypeRef>, AllocError>
    ensures { IfOk result (λ r. r ≡ shapes.pointed (T.types types.now) t.now) }
{
    match pointed(types, t) {
        None => Ok(None),
        Some(t) => {
            let t = copy_type(t)?;
            Ok(Some(t))
        }
    }
}

fn dereference_of<T: Types>(
    alloc: Global,
    types: &T,
    book: &mut Notebook,
    at: Pos,
    place: Place,
) -> Result<Option<Place>, AllocError>
    ensures made { IfOk result (λ r. r ≡ (spec.dereference (T.types types.now) at place).node) }
    ensures noted { OnOk result (book.new ≡ book_after book.old (spec.dereference (T.types types.now) at place).notes) }
{
    match pointed_type(types, &place.of)? {
        None => {
            book.breaks(Rule::UnfitSelector, at);
            Ok(None)
        }
        Some(t) => {
            if is_held(types, &t) {
                let place = dereferenced(alloc, place, at, t, true)?;
                Ok(Some(place))
            } else {
                Ok(None)
            }
        }
    }
}

/// A dereference that is written. None where it breaks rule 22, or the type that the pointer points
/// to is not there.
pub fn dereference<S: Surroundings>(
    alloc: Global,
    here: &S,
    book: &mut Notebook,
    at: Pos,
    place: Place,
) -> Result<Option<Place>, AllocError>
    ensures made { IfOk result (λ r. r ≡ (spec.dereference (map_of (S.around here.now)) at place).node) }
    ensures noted { OnOk result (book.new ≡ book_after book.old (spec.dereference (map_of (S.around here.now)) at place).notes) }
{
    dereference_of(alloc, types(here), book, at, place)
}

// Through a pointer to an array without a dereference that is written.
fn to_array_of<T: Types>(
    alloc: Global,
    types: &T,
    at: Pos,
    place: Place,
    t: TypeRef,
) -> Result<Option<Place>, AllocError>
    ensures { IfOk result (λ r. r ≡ (spec.implicitly (T.types types.now) (shapes.is_array (T.types types.now)) at place (Some t)).node) }
{
    if !is_held(types, &t) {
        return Ok(None);
    }
    if is_array(types, &t) {
        let place = dereferenced(alloc, place, at, t, false)?;
        Ok(Some(place))
    } else {
        Ok(Some(place))
    }
}

fn to_array<T: Types>(
    alloc: Global,
    types: &T,
    at: Pos,
    place: Place,
) -> Result<Option<Place>, AllocError>
    ensures { IfOk result (λ r. r ≡ (spec.implicitly (T.types types.now) (shapes.is_array (T.types types.now)) at place (shapes.pointed (T.types types.now) place.of)).node) }
{
    let pointed = pointed_type(types, &place.of)?;
    match pointed {
        None => Ok(Some(place)),
        Some(t) => to_array_of(alloc, types, at, place, t),
    }
}

fn array_parts<T: Types>(
    types: &T,
    t: &TypeRef,
) -> Result<Option<(Option<u32>, TypeRef)>, AllocError>
    ensures { IfOk result (λ r. r ≡ shapes.array_of (T.types types.now) t.now) }
{
    match array_of(types, t) {
        None => Ok(None),
        Some((length, of)) => {
            let of = copy_type(of)?;
            Ok(Some((length, of)))
        }
    }
}

fn indexed(
    alloc: Global,
    place: Place,
    at: Pos,
    index: Valued,
    array: (Option<u32>, TypeRef),
) -> Result<Place, AllocError>
    ensures { IfOk result (λ r. r ≡ spec.indexed place at index array) }
{
    let (length, element) = array;
    let read_only = place.read_only;
    let of = copy_type(&element)?;
    let index = tree_of(index);
    let (designator, root) = place.into_rooted();
    let designator = DesignatorTree::index(alloc, designator, length, index, at, of)?;
    Ok(Place {
        designator,
        of: element,
        root,
        selected: true,
        read_only,
        var_record: false,
        guarded: false,
    })
}

fn indexed_if<T: Types>(
    alloc: Global,
    types: &T,
    book: &mut Notebook,
    at: Pos,
    place: Place,
    index: Valued,
    array: (Option<u32>, TypeRef),
) -> Result<Option<Place>, AllocError>
    ensures made { IfOk result (λ r. r ≡ (spec.index_into (T.types types.now) at place (judged.sound index) (Some array)).node) }
    ensures noted { OnOk result (book.new ≡ book_after book.old (spec.index_into (T.types types.now) at place (judged.sound index) (Some array)).notes) }
{
    if is_integer(types, &index) {
        let place = indexed(alloc, place, at, index, array)?;
        Ok(Some(place))
    } else {
        book.breaks(Rule::UnfitSelector, at);
        Ok(None)
    }
}

fn index_into<T: Types>(
    alloc: Global,
    types: &T,
    book: &mut Notebook,
    at: Pos,
    place: Place,
    index: Option<Valued>,
) -> Result<Option<Place>, AllocError>
    ensures made { IfOk result (λ r. r ≡ (spec.index_into (T.types types.now) at place (record { node = index; notes = judged.no_notes }) (shapes.array_of (T.types types.now) place.of)).node) }
    ensures noted { OnOk result (book.new ≡ book_after book.old (spec.index_into (T.types types.now) at place (record { node = index; notes = judged.no_notes }) (shapes.array_of (T.types types.now) place.of)).notes) }
{
    match array_parts(types, &place.of)? {
        None => {
            book.breaks(Rule::UnfitSelector, at);
            Ok(None)
        }
        Some(array) => match index {
            None => Ok(None),
            Some(index) => indexed_if(alloc, types, book, at, place, index, array),
        },
    }
}

fn index_of<T: Types>(
    alloc: Global,
    types: &T,
    book: &mut Notebook,
    at: Pos,
    place: Place,
    index: Option<Valued>,
) -> Result<Option<Place>, AllocError>
    ensures made { IfOk result (λ r. r ≡ (spec.index (T.types types.now) at place (record { node = index; notes = judged.no_notes })).node) }
    ensures noted { OnOk result (book.new ≡ book_after book.old (spec.index (T.types types.now) at place (record { node = index; notes = judged.no_notes })).notes) }
{
    match to_array(alloc, types, at, place)? {
        None => Ok(None),
        Some(array) => index_into(alloc, types, book, at, array, index),
    }
}

/// An index behind a variable, of which what it says itself is noted already. None where it breaks
/// rule 22, or the index breaks a rule.
pub fn index<S: Surroundings>(
    alloc: Global,
    here: &S,
    book: &mut Notebook,
    at: Pos,
    place: Place,
    index: Option<Valued>,
) -> Result<Option<Place>, AllocError>
    ensures made { IfOk result (λ r. r ≡ (spec.index (map_of (S.around here.now)) at place (record { node = index; notes = judged.no_notes })).node) }
    ensures noted { OnOk result (book.new ≡ book_after book.old (spec.index (map_of (S.around here.now)) at place (record { node = index; notes = judged.no_notes })).notes) }
{
    index_of(alloc, types(here), book, at, place, index)
}
