//! How long the chains are in which each type stands on the next.

ghost use Rattle.std.specs.Prelude.{◌≡◌, ◌<◌, ◌+◌, ◌++◌, ◌∷◌, [], not, IfOk, OnOk};
ghost use Rattle.std.specs.List.{list_all, list_any};
ghost use Rattle.ob_types.specs.declared.types.TypeRef.TheVariants as ref;
ghost use Rattle.ob_cdecl_heading.specs.Keys.{key as key_at};
ghost use Rattle.ob_cdecl_scopes.specs.Scopes.{around_of, at_start};
ghost use Rattle.ob_rules.specs.Names.{Around, map_of};
ghost use Rattle.ob_rules.specs.Shapes.{is_held as holds};
ghost use Rattle.ob_rules.specs.Depth as spec;
ghost use Rattle.ob_cdecl_bound.specs.Heights.{AreHeights, Measures, MeasuresAll, known_height, within_left, greater_of};

use crate::parts::{named_by, stands_on};
use ob_cdecl_field::{add_types, copy_typed};
use ob_cdecl_heading::key_of;
use ob_cdecl_scopes::{Imports, Named, Scope, Table};
use ob_cexpr_name::is_held;
use ob_tree::{CompactName, List, Name, ObjName, QName};
use ob_types::{TypeRef, TypedType, Types};
use std::alloc::{AllocError, Global};

/// How many types the longest chain from a type on has.
#[derive(Drop)]
pub(crate) struct Height {
    pub(crate) key: ObjName,
    pub(crate) height: u32,
}

impl Named for Height {
    ghost name = { λ h. h.key };

    fn name_bytes(&self) -> &[u8] {
        self.key.as_bytes()
    }
}

const DEPTH: u32 = 200;

fn are_held<T: Types>(types: &T, all: &[TypeRef]) -> bool
    ensures { result ≡ list_all (holds (T.types types.now)) all.now }
{
    'all: for t in all {
        if !is_held(types, t) {
            return false;
        }
    }
    true
}

fn names_held<T: Types>(alloc: Global, types: &T, t: &TypedType) -> Result<bool, AllocError>
    ensures { IfOk result (λ r. r ≡ spec.names_held (T.types types.now) t.now) }
{
    let all = named_by(alloc, &t.desc)?;
    Ok(are_held(types, all.as_slice()))
}

fn keep_if(
    alloc: Global,
    kept: &mut List<TypedType>,
    keeps: bool,
    t: &TypedType,
) -> Result<(), AllocError>
    ensures { OnOk result (kept.new ≡ kept.old ++ spec.keep_if keeps t.now []) }
{
    if keeps {
        let t = copy_typed(alloc, t)?;
        kept.push(t)?;
    }
    Ok(())
}

// Those of the types that name only types that are there.
fn kept_of<T: Types>(
    alloc: Global,
    here: &T,
    types: &[TypedType],
) -> Result<List<TypedType>, AllocError>
    ensures { IfOk result (λ r. r ≡ spec.kept_of (spec.names_held (T.types here.now)) types.now) }
{
    let mut kept = List::new(alloc);
    'types: for t in types {
        let keeps = names_held(alloc, here, t)?;
        keep_if(alloc, &mut kept, keeps, t)?;
    }
    Ok(kept)
}

fn scope_of<'a, E: Imports>(
    alloc: Global,
    unit: Name,
    imported: &'a E,
    types: &[TypedType],
) -> Result<Scope<'a, E>, AllocError>
    ensures { IfOk result (λ s. around_of E.types s ≡ record (at_start unit (E.types imported.now)) { own = types.now }) }
{
    let mut scope = Scope::new(alloc, unit, imported)?;
    add_types(alloc, &mut scope, types)?;
    Ok(scope)
}

fn keep<E: Imports>(
    alloc: Global,
    unit: Name,
    imported: &E,
    types: &[TypedType],
) -> Result<List<TypedType>, AllocError>
    ensures { IfOk result (λ r. r ≡ spec.kept_of (spec.names_held (map_of (record (at_start unit (E.types imported.now)) { own = types.now }))) types.now) }
{
    let scope = scope_of(alloc, unit, imported, types)?;
    let kept = kept_of(alloc, &scope, types)?;
    Ok(kept)
}

fn copy_all(alloc: Global, types: &[TypedType]) -> Result<List<TypedType>, AllocError>
    ensures { IfOk result (λ r. r ≡ types.now) }
{
    let mut all = List::new(alloc);
    'types: for t in types {
        let t = copy_typed(alloc, t)?;
        all.push(t)?;
    }
    Ok(all)
}

fn kept<E: Imports>(
    alloc: Global,
    unit: Name,
    imported: &E,
    types: &[TypedType],
) -> Result<List<TypedType>, AllocError>
    ensures { IfOk result (λ r. r ≡ spec.kept (record (at_start unit (E.types imported.now)) { own = types.now })) }
{
    let mut all = copy_all(alloc, types)?;
    'rounds: for round in 0..types.len() {
        let next = keep(alloc, unit, imported, all.as_slice())?;
        if next.len() == all.len() {
            return Ok(next);
        }
        all = next;
    }
    Ok(all)
}

fn height_of(known: &Table<Height>, key: &ObjName) -> Option<u32>
    ensures { result ≡ known_height known.now key.now }
{
    match known.find(key.as_bytes()) {
        None => None,
        Some(found) => Some(found.height),
    }
}

// A height that is known, where it is at most `left`.
fn if_within(left: u32, height: u32) -> Option<u32>
    ensures { result ≡ within_left left height }
{
    if height <= left { Some(height) } else { None }
}

fn add_height(
    alloc: Global,
    known: &mut Table<Height>,
    key: ObjName,
    below: u32,
    left: u32,
) -> Result<u32, AllocError>
    requires { below < left }
    ensures height { IfOk result (λ r. r ≡ below + 1) }
    ensures known { OnOk result (known.new ≡ record { key = key; height = below + 1 } ∷ known.old) }
{
    let height = below + 1;
    known.push(alloc, Height { key, height })?;
    Ok(height)
}

fn greater(first: u32, second: u32) -> u32
    ensures { result ≡ greater_of first second }
{
    if first < second { second } else { first }
}

// The height of a type; none where it is more than `left`, or a type is not there.
#[cycle(heights)]
fn height_within<T: Types>(
    alloc: Global,
    types: &T,
    known: &mut Table<Height>,
    left: u32,
    t: &TypeRef,
) -> Result<Option<u32>, AllocError>
    requires { AreHeights (T.types types.now) known.old }
    ensures known { OnOk result (AreHeights (T.types types.now) known.new) }
    ensures height { IfOk result (λ r. Measures (T.types types.now) left t.now r) }
{
    match t {
        TypeRef::Basic(_) => Ok(Some(0)),
        TypeRef::Named(name) => {
            if left == 0 {
                return Ok(None);
            }
            let key = key_of(alloc, &name.module.name(), name.object.as_bytes())?;
            match height_of(known, &key) {
                Some(height) => Ok(if_within(left, height)),
                None => named_height(alloc, types, known, left, name, key),
            }
        }
    }
}

#[cycle(heights)]
fn named_height<T: Types>(
    alloc: Global,
    types: &T,
    known: &mut Table<Height>,
    left: u32,
    name: &QName,
    key: ObjName,
) -> Result<Option<u32>, AllocError>
    requires some { 0 < left }
    requires key { key ≡ key_at name.now.«module» name.now.object }
    requires known { AreHeights (T.types types.now) known.old }
    ensures known { OnOk result (AreHeights (T.types types.now) known.new) }
    ensures height { IfOk result (λ r. Measures (T.types types.now) left (ref.Named name.now) r) }
{
    match types.desc_of(name) {
        None => Ok(None),
        Some(desc) => {
            let parts = stands_on(alloc, desc)?;
            match heights(alloc, types, known, left - 1, parts.as_slice())? {
                None => Ok(None),
                Some(below) => {
                    let height = add_height(alloc, known, key, below, left)?;
                    Ok(Some(height))
                }
            }
        }
    }
}

// The greatest of the heights.
#[cycle(heights)]
fn heights<T: Types>(
    alloc: Global,
    types: &T,
    known: &mut Table<Height>,
    left: u32,
    parts: &[TypeRef],
) -> Result<Option<u32>, AllocError>
    requires { AreHeights (T.types types.now) known.old }
    ensures known { OnOk result (AreHeights (T.types types.now) known.new) }
    ensures height { IfOk result (λ r. MeasuresAll (T.types types.now) left parts.now r) }
{
    let mut most = 0;
    'parts: for part in parts {
        match height_within(alloc, types, known, left, part)? {
            None => return Ok(None),
            Some(height) => most = greater(most, height),
        }
    }
    Ok(Some(most))
}

fn is_within<T: Types>(
    alloc: Global,
    types: &T,
    known: &mut Table<Height>,
    left: u32,
    unit: Name,
    t: &TypedType,
) -> Result<bool, AllocError>
    requires { AreHeights (T.types types.now) known.old }
    ensures known { OnOk result (AreHeights (T.types types.now) known.new) }
    ensures within { IfOk result (λ r. r ≡ spec.is_within (T.types types.now) left (ref.Named (record { «module» = unit; object = t.now.name }))) }
{
    let object = t.name.clone()?;
    let name = TypeRef::Named(QName {
        module: CompactName::of(alloc, &unit)?,
        object,
    });
    match height_within(alloc, types, known, left, &name)? {
        None => Ok(false),
        Some(_) => Ok(true),
    }
}

fn deep_among<T: Types>(
    alloc: Global,
    here: &T,
    left: u32,
    unit: Name,
    types: &[TypedType],
) -> Result<bool, AllocError>
    ensures { IfOk result (λ r. r ≡ list_any (λ t. not (spec.is_within (T.types here.now) left (ref.Named (record { «module» = unit; object = t.name })))) types.now) }
{
    let mut known = Table::new(alloc);
    'types: for t in types {
        if !is_within(alloc, here, &mut known, left, unit, t)? {
            return Ok(true);
        }
    }
    Ok(false)
}

fn deep_types<E: Imports>(
    alloc: Global,
    unit: Name,
    imported: &E,
    types: &[TypedType],
) -> Result<bool, AllocError>
    ensures { IfOk result (λ r. r ≡ spec.is_deep (record (at_start unit (E.types imported.now)) { own = types.now })) }
{
    let all = kept(alloc, unit, imported, types)?;
    let scope = scope_of(alloc, unit, imported, all.as_slice())?;
    let deep = deep_among(alloc, &scope, DEPTH, unit, all.as_slice())?;
    Ok(deep)
}

/// Whether the types of a module exceed the limit `depth`, where its imports show what `imported`
/// has: a chain in which each type stands on the next has more than 200 types. Types that name one
/// that is not there do not count.
pub fn is_deep<E: Imports>(
    alloc: Global,
    unit: Name,
    imported: &E,
    types: &[TypedType],
) -> Result<bool, AllocError>
    ensures { (u : Around) → u.unit ≡ unit → u.shown ≡ E.types imported.now → u.own ≡ types.now → IfOk result (λ r. r ≡ spec.is_deep u) }
{
    let deep = deep_types(alloc, unit, imported, types)?;
    Ok(deep)
}
