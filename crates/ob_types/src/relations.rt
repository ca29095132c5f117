//! Relations of types: same, equal, extends, matches.

ghost use Rattle.std.specs.Prelude.{◌≡◌, ◌↔◌, IsTrue, Option};
ghost use Rattle.std.specs.Option.{option_copied};
ghost use Rattle.std.specs.List.{AllByRecursion};
ghost use Rattle.ob_types.specs.Maps.{IsHeld, signature_types};
ghost use Rattle.ob_types.specs.Relations.{Same, Equal, Matches, Extends, IsGrounded};
ghost use Rattle.ob_types.specs.Tests.{basic_number, target_of, alias_of, target, type_eq, same_at, shape_at, base_of, pointer_of, climbs, both, extends_at, element_of, signature_of, modes_alike, params_alike, results_alike, signatures_alike, equal_at};

use crate::desc::Desc;
use crate::types::{Basic, Mode, Signature, TypeRef, Types};

/// The most types that stand in a chain of a grounded map.
const CHAIN: u32 = 201;

fn number_of(basic: Basic) -> u32
    ensures { result ≡ basic_number basic }
{
    basic as u32
}

fn is_one(a: &TypeRef, b: &TypeRef) -> bool
    ensures { result ≡ type_eq a.now b.now }
{
    match (a, b) {
        (TypeRef::Basic(basic), TypeRef::Basic(another)) => number_of(*basic)
            == number_of(*another),
        (TypeRef::Named(name), TypeRef::Named(another)) => {
            name.module.as_bytes() == another.module.as_bytes()
                && name.object.as_bytes() == another.object.as_bytes()
        }
        _ => false,
    }
}

fn aliased(desc: &Desc) -> Option<&TypeRef>
    ensures { option_copied result ≡ target_of (Some desc.now) }
{
    match desc {
        Desc::Alias(_, of) => Some(of),
        _ => None,
    }
}

fn base(desc: &Desc) -> Option<&TypeRef>
    ensures { option_copied result ≡ base_of (Some desc.now) }
{
    match desc {
        Desc::Record(record) => record.base.as_ref(),
        _ => None,
    }
}

fn pointed(desc: &Desc) -> Option<&TypeRef>
    ensures { option_copied result ≡ pointer_of (Some desc.now) }
{
    match desc {
        Desc::Pointer(_, of) => Some(of),
        _ => None,
    }
}

/// What the map has of the type: none of a basic one. Takes no memory.
pub fn shape_of<'a, T: Types>(types: &'a T, t: &TypeRef) -> Option<&'a Desc>
    ensures { option_copied result ≡ shape_at (T.types types.now) t.now }
{
    match t {
        TypeRef::Basic(_) => None,
        TypeRef::Named(name) => types.desc_of(name),
    }
}

// What the type is equated to.
fn alias_target<'a, T: Types>(types: &'a T, t: &TypeRef) -> Option<&'a TypeRef>
    ensures { option_copied result ≡ alias_of (T.types types.now) t.now }
{
    match t {
        TypeRef::Basic(_) => None,
        TypeRef::Named(name) => aliased(types.desc_of(name)?),
    }
}

/// The type that `t` is equated to, at most 201 equations on; over a grounded map the type that
/// it stands for. Takes no memory.
pub fn target_within<'a, T: Types>(types: &'a T, t: &'a TypeRef) -> &'a TypeRef
    ensures { result.now ≡ target (T.types types.now) CHAIN t.now }
{
    let mut current = t;
    for _ in 0..CHAIN {
        match alias_target(types, current) {
            None => return current,
            Some(of) => current = of,
        }
    }
    current
}

/// Whether both types are equated to one. Over any map, a grounded one or not. Takes no memory.
#[tactic(auto, unfolding(crate::specs::Tests::same_at))]
pub fn is_same_at<T: Types>(types: &T, a: &TypeRef, b: &TypeRef) -> bool
    ensures { result ≡ same_at (T.types types.now) a.now b.now }
{
    is_one(target_within(types, a), target_within(types, b))
}

// The base of the record that t stands for.
fn base_within<'a, T: Types>(types: &'a T, t: &'a TypeRef) -> Option<&'a TypeRef>
    ensures { option_copied result ≡ base_of (shape_at (T.types types.now) (target (T.types types.now) CHAIN t.now)) }
{
    base(shape_of(types, target_within(types, t))?)
}

// What the pointer that t stands for points to.
fn pointed_within<'a, T: Types>(types: &'a T, t: &'a TypeRef) -> Option<&'a TypeRef>
    ensures { option_copied result ≡ pointer_of (shape_at (T.types types.now) (target (T.types types.now) CHAIN t.now)) }
{
    pointed(shape_of(types, target_within(types, t))?)
}

fn climbs_to<T: Types>(types: &T, a: &TypeRef, b: &TypeRef) -> bool
    ensures { result ≡ climbs (T.types types.now) CHAIN a.now b.now }
{
    let mut current = a;
    for _ in 0..CHAIN {
        if is_same_at(types, current, b) {
            return true;
        }
        match base_within(types, current) {
            None => return false,
            Some(of) => current = of,
        }
    }
    is_same_at(types, current, b)
}

fn pointers_climb<T: Types>(types: &T, a: Option<&TypeRef>, b: Option<&TypeRef>) -> bool
    ensures { result ≡ both (λ s t. climbs (T.types types.now) CHAIN s t) (option_copied a.entry) (option_copied b.entry) }
{
    match (a, b) {
        (Some(first), Some(second)) => climbs_to(types, first, second),
        _ => false,
    }
}

/// Whether `a` extends `b`, in at most 201 steps up the bases. Over any map. Takes no memory.
#[tactic(auto, unfolding(crate::specs::Tests::extends_at))]
pub fn extends_within<T: Types>(types: &T, a: &TypeRef, b: &TypeRef) -> bool
    ensures { result ≡ extends_at (T.types types.now) a.now b.now }
{
    climbs_to(types, a, b)
        || pointers_climb(types, pointed_within(types, a), pointed_within(types, b))
}

fn mode_is(a: Mode, b: Mode) -> bool
    ensures { result ≡ modes_alike a b }
{
    match a {
        Mode::Value => matches!(b, Mode::Value),
        Mode::Var => matches!(b, Mode::Var),
    }
}

fn element(desc: &Desc) -> Option<&TypeRef>
    ensures { option_copied result ≡ element_of (Some desc.now) }
{
    match desc {
        Desc::OpenArray(_, of) => Some(of),
        _ => None,
    }
}

fn signature(desc: &Desc) -> Option<&Signature>
    ensures { option_copied result ≡ signature_of (Some desc.now) }
{
    match desc {
        Desc::ProcType(_, signature) => Some(signature),
        _ => None,
    }
}

/// The elements of the open array that `t` stands for; none where it is none. Over any map.
/// Takes no memory.
pub fn element_within<'a, T: Types>(types: &'a T, t: &'a TypeRef) -> Option<&'a TypeRef>
    ensures { option_copied result ≡ element_of (shape_at (T.types types.now) (target (T.types types.now) CHAIN t.now)) }
{
    element(shape_of(types, target_within(types, t))?)
}

/// The signature of the procedure type that `t` stands for; none where it is none. Over any map.
/// Takes no memory.
pub fn signature_within<'a, T: Types>(types: &'a T, t: &'a TypeRef) -> Option<&'a Signature>
    ensures { option_copied result ≡ signature_of (shape_at (T.types types.now) (target (T.types types.now) CHAIN t.now)) }
{
    signature(shape_of(types, target_within(types, t))?)
}

fn results_same<T: Types>(types: &T, a: &Option<TypeRef>, b: &Option<TypeRef>) -> bool
    ensures { result ≡ results_alike (λ x y. same_at (T.types types.now) x y) a.now b.now }
{
    match (a, b) {
        (None, None) => true,
        (Some(first), Some(second)) => is_same_at(types, first, second),
        _ => false,
    }
}

/// Whether two types are equal, in at most `left` steps into them. Over any map. Takes no memory.
#[cycle(equal)]
#[tactic(auto, unfolding(crate::specs::Tests::equal_at))]
pub fn equal_within<T: Types>(types: &T, left: u32, a: &TypeRef, b: &TypeRef) -> bool
    ensures { result ≡ equal_at (T.types types.now) left a.now b.now }
{
    if is_same_at(types, a, b) {
        return true;
    }
    if left == 0 {
        return false;
    }
    match element_within(types, a) {
        Some(first) => match element_within(types, b) {
            Some(second) => equal_within(types, left - 1, first, second),
            None => false,
        },
        None => match signature_within(types, a) {
            Some(first) => match signature_within(types, b) {
                Some(second) => {
                    params_equal(
                        types,
                        left - 1,
                        first.params.as_slice(),
                        second.params.as_slice(),
                    ) && results_same(types, &first.result, &second.result)
                }
                None => false,
            },
            None => false,
        },
    }
}

#[cycle(equal)]
fn params_equal<T: Types>(
    types: &T,
    left: u32,
    a: &[(Mode, TypeRef)],
    b: &[(Mode, TypeRef)],
) -> bool
    ensures { result ≡ params_alike (λ x y. equal_at (T.types types.now) left x y) a.now b.now }
{
    let mut first = a;
    let mut second = b;
    while let [p, ps @ ..] = first {
        match second {
            [] => return false,
            [q, qs @ ..] => {
                if !mode_is(p.0, q.0) {
                    return false;
                }
                if !equal_within(types, left, &p.1, &q.1) {
                    return false;
                }
                first = ps;
                second = qs;
            }
        }
    }
    second.is_empty()
}

/// Whether two types are the same: come from the same identifier, identifiers equated to each
/// other being one. Takes no memory.
pub fn same<T: Types>(types: &T, a: &TypeRef, b: &TypeRef) -> bool
    requires grounded { IsGrounded (T.types types.now) }
    requires first { IsHeld (T.types types.now) a.now }
    requires second { IsHeld (T.types types.now) b.now }
    ensures { IsTrue result ↔ Same (T.types types.now) a.now b.now }
{
    is_same_at(types, a, b)
}

/// Whether `a` extends `b`: is the same type, or a record whose base extends it; or both are
/// pointers, and what `a` points to extends what `b` points to. Takes no memory.
pub fn extends<T: Types>(types: &T, a: &TypeRef, b: &TypeRef) -> bool
    requires grounded { IsGrounded (T.types types.now) }
    requires first { IsHeld (T.types types.now) a.now }
    requires second { IsHeld (T.types types.now) b.now }
    ensures { IsTrue result ↔ Extends (T.types types.now) a.now b.now }
{
    extends_within(types, a, b)
}

/// Whether two parameter lists match, in at most 201 steps into types. Over any map. Takes no
/// memory.
pub fn signatures_match<T: Types>(types: &T, a: &Signature, b: &Signature) -> bool
    ensures { result ≡ signatures_alike (λ x y. equal_at (T.types types.now) CHAIN x y) (λ x y. same_at (T.types types.now) x y) a.now b.now }
{
    params_equal(types, CHAIN, a.params.as_slice(), b.params.as_slice())
        && results_same(types, &a.result, &b.result)
}

/// Whether two types are equal: the same, or both open arrays with equal element types, or both
/// procedure types whose parameter lists match. Takes no memory.
pub fn equal<T: Types>(types: &T, a: &TypeRef, b: &TypeRef) -> bool
    requires grounded { IsGrounded (T.types types.now) }
    requires first { IsHeld (T.types types.now) a.now }
    requires second { IsHeld (T.types types.now) b.now }
    ensures { IsTrue result ↔ Equal (T.types types.now) a.now b.now }
{
    equal_within(types, CHAIN, a, b)
}

/// Whether two parameter lists match: equally many parameters, pairwise of the same mode and of
/// equal types, and the same result or none. Takes no memory.
pub fn matches<T: Types>(types: &T, a: &Signature, b: &Signature) -> bool
    requires grounded { IsGrounded (T.types types.now) }
    requires first { AllByRecursion (λ t. IsHeld (T.types types.now) t) (signature_types a.now) }
    requires second { AllByRecursion (λ t. IsHeld (T.types types.now) t) (signature_types b.now) }
    ensures { IsTrue result ↔ Matches (T.types types.now) a.now b.now }
{
    signatures_match(types, a, b)
}
