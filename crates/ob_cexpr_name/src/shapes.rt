//! What a type is, over any map of types. Nothing but `extends_record` and `member` takes memory.

ghost use Rattle.std.specs.Prelude.{◌≡◌, IfOk, Some};
ghost use Rattle.std.specs.Option.{option_copied, option_map};
ghost use Rattle.std.specs.List.{find};
ghost use Rattle.std.specs.Prelude.{bytes_eq};
ghost use Rattle.ob_types.specs.declared.types.TypeRef.TheVariants as ref;
ghost use Rattle.ob_types.specs.Tests.{pointer_of, shape_at, target};
ghost use Rattle.ob_rules.specs.Shapes as spec;
ghost use Rattle.ob_cexpr_name.specs.Members.{member_seen};

use ob_tree::{Name, QName};
use ob_types::{
    Basic, Desc, Field, Method, Mode, Passing, TypeRef, Types, extends_within, is_same_at,
    shape_of, target_within,
};
use ob_types_trees::{copy_field, copy_method, copy_name};
use std::alloc::{AllocError, Global};

/// The description of what the type stands for.
pub fn shape<'a, T: Types>(types: &'a T, t: &'a TypeRef) -> Option<&'a Desc>
    ensures { option_copied result ≡ spec.shape (T.types types.now) t.now }
{
    shape_of(types, target_within(types, t))
}

/// The basic type that the type stands for.
pub fn basic_of<T: Types>(types: &T, t: &TypeRef) -> Option<Basic>
    ensures { result ≡ spec.basic_of (T.types types.now) t.now }
{
    match target_within(types, t) {
        TypeRef::Basic(basic) => Some(*basic),
        TypeRef::Named(_) => None,
    }
}

fn record_named<'a>(desc: Option<&Desc>, name: &'a QName) -> Option<&'a QName>
    ensures { option_copied result ≡ spec.record_at (ref.Named name.now) (option_copied desc.entry) }
{
    match desc {
        Some(Desc::Record(_)) => Some(name),
        _ => None,
    }
}

/// The name of the record type that the type stands for.
pub fn record_of<'a, T: Types>(types: &'a T, t: &'a TypeRef) -> Option<&'a QName>
    ensures { option_copied result ≡ spec.record_of (T.types types.now) t.now }
{
    match target_within(types, t) {
        TypeRef::Basic(_) => None,
        TypeRef::Named(name) => record_named(types.desc_of(name), name),
    }
}

fn pointer_base(desc: &Desc) -> Option<&TypeRef>
    ensures { option_copied result ≡ pointer_of (Some desc.now) }
{
    match desc {
        Desc::Pointer(_, of) => Some(of),
        _ => None,
    }
}

/// What a pointer type points to.
pub fn pointed<'a, T: Types>(types: &'a T, t: &'a TypeRef) -> Option<&'a TypeRef>
    ensures { option_copied result ≡ spec.pointed (T.types types.now) t.now }
{
    pointer_base(shape(types, t)?)
}

/// The record type that a pointer type points to.
pub fn pointed_record<'a, T: Types>(types: &'a T, t: &'a TypeRef) -> Option<&'a QName>
    ensures { option_copied result ≡ spec.pointed_record (T.types types.now) t.now }
{
    record_of(types, pointed(types, t)?)
}

fn array_parts(desc: &Desc) -> Option<(Option<u32>, &TypeRef)>
    ensures { option_map (λ a. (a.0, a.1.now)) result ≡ spec.array_at (Some desc.now) }
{
    match desc {
        Desc::Array(_, length, of) => Some((Some(*length), of)),
        Desc::OpenArray(_, of) => Some((None, of)),
        _ => None,
    }
}

/// An array type's length, none of an open one, and its elements.
pub fn array_of<'a, T: Types>(types: &'a T, t: &'a TypeRef) -> Option<(Option<u32>, &'a TypeRef)>
    ensures { option_map (λ a. (a.0, a.1.now)) result ≡ spec.array_of (T.types types.now) t.now }
{
    array_parts(shape(types, t)?)
}

fn open_base(desc: &Desc) -> Option<&TypeRef>
    ensures { option_copied result ≡ spec.open_at (Some desc.now) }
{
    match desc {
        Desc::OpenArray(_, of) => Some(of),
        _ => None,
    }
}

/// The elements of an open array type.
pub fn open_element<'a, T: Types>(types: &'a T, t: &'a TypeRef) -> Option<&'a TypeRef>
    ensures { option_copied result ≡ spec.open_element (T.types types.now) t.now }
{
    open_base(shape(types, t)?)
}

/// Whether it is an open array type.
pub fn is_open<T: Types>(types: &T, t: &TypeRef) -> bool
    ensures { result ≡ spec.is_open (T.types types.now) t.now }
{
    matches!(shape(types, t), Some(Desc::OpenArray(_, _)))
}

/// Whether it is an array type.
pub fn is_array<T: Types>(types: &T, t: &TypeRef) -> bool
    ensures { result ≡ spec.is_array (T.types types.now) t.now }
{
    matches!(
        shape(types, t),
        Some(Desc::Array(_, _, _) | Desc::OpenArray(_, _))
    )
}

/// Whether it is a record type.
pub fn is_record<T: Types>(types: &T, t: &TypeRef) -> bool
    ensures { result ≡ spec.is_record (T.types types.now) t.now }
{
    match record_of(types, t) {
        Some(_) => true,
        None => false,
    }
}

/// Whether it is a pointer type.
pub fn is_pointer<T: Types>(types: &T, t: &TypeRef) -> bool
    ensures { result ≡ spec.is_pointer (T.types types.now) t.now }
{
    matches!(shape(types, t), Some(Desc::Pointer(_, _)))
}

/// Whether it is an array type with elements of the same type as that one.
pub fn has_elements<T: Types>(types: &T, element: &TypeRef, t: &TypeRef) -> bool
    ensures { result ≡ spec.element_is (T.types types.now) element.now (spec.array_of (T.types types.now) t.now) }
{
    match array_of(types, t) {
        None => false,
        Some((_, of)) => is_same_at(types, of, element),
    }
}

/// Whether it is an array of characters.
pub fn is_char_array<T: Types>(types: &T, t: &TypeRef) -> bool
    ensures { result ≡ spec.is_char_array (T.types types.now) t.now }
{
    let char = TypeRef::Basic(Basic::Char);
    has_elements(types, &char, t)
}

/// Whether it is a basic type, or one that the map has.
pub fn is_held<T: Types>(types: &T, t: &TypeRef) -> bool
    ensures { result ≡ spec.is_held (T.types types.now) t.now }
{
    match t {
        TypeRef::Basic(_) => true,
        TypeRef::Named(name) => types.desc_of(name).is_some(),
    }
}

/// How a parameter of the type is passed.
pub fn passing_of<T: Types>(types: &T, mode: Mode, t: &TypeRef) -> Passing
    ensures { result ≡ spec.passing_of (T.types types.now) mode t.now }
{
    match mode {
        Mode::Value => by_value(is_open(types, t), is_array(types, t) || is_record(types, t)),
        Mode::Var => by_var(is_open(types, t), is_record(types, t)),
    }
}

fn by_value(open_array: bool, structured: bool) -> Passing
    ensures { result ≡ spec.by_value open_array structured }
{
    if open_array {
        Passing::OpenArray
    } else if structured {
        Passing::Structure
    } else {
        Passing::Scalar
    }
}

fn by_var(open_array: bool, record_type: bool) -> Passing
    ensures { result ≡ spec.by_var open_array record_type }
{
    if open_array {
        Passing::VariableOpenArray
    } else if record_type {
        Passing::VariableRecord
    } else {
        Passing::Variable
    }
}

/// Whether the record type `a` is the record type `b` or extends it.
pub fn extends_record<T: Types>(types: &T, a: &QName, b: &QName) -> Result<bool, AllocError>
    ensures { IfOk result (λ r. r ≡ spec.extends_record (T.types types.now) a.now b.now) }
{
    let first = TypeRef::Named(copy_name(a)?);
    let second = TypeRef::Named(copy_name(b)?);
    Ok(extends_within(types, &first, &second))
}

fn base_type(desc: &Desc) -> Option<&TypeRef>
    ensures { option_copied result ≡ spec.base_type (Some desc.now) }
{
    match desc {
        Desc::Record(record) => record.base.as_ref(),
        _ => None,
    }
}

/// The record that a record type extends.
pub fn base_record<'a, T: Types>(types: &'a T, name: &QName) -> Option<&'a QName>
    ensures { option_copied result ≡ spec.base_record (T.types types.now) name.now }
{
    record_of(types, base_type(types.desc_of(name)?)?)
}

/// A field or a bound procedure, with the record that declares it.
#[derive(Drop)]
pub enum Member {
    Field(QName, Field),
    Method(QName, Method),
}

fn field_named<'a>(fields: &'a [Field], name: &Name) -> Option<&'a Field>
    ensures { option_copied result ≡ find (λ f. bytes_eq f.name name.now) fields.now }
{
    for field in fields {
        if field.name.as_bytes() == name.as_bytes() {
            return Some(field);
        }
    }
    None
}

fn method_named<'a>(methods: &'a [Method], name: &Name) -> Option<&'a Method>
    ensures { option_copied result ≡ find (λ m. bytes_eq m.name name.now) methods.now }
{
    for method in methods {
        if method.name.as_bytes() == name.as_bytes() {
            return Some(method);
        }
    }
    None
}

fn field_or(
    alloc: Global,
    owner: &QName,
    field: Option<&Field>,
    method: Option<&Method>,
) -> Result<Option<Member>, AllocError>
    ensures { IfOk result (λ r. option_map member_seen r ≡ spec.field_or owner.now (option_copied field.entry) (option_copied method.entry)) }
{
    match field {
        Some(field) => {
            let owner = copy_name(owner)?;
            let field = copy_field(field)?;
            Ok(Some(Member::Field(owner, field)))
        }
        None => match method {
            Some(method) => {
                let owner = copy_name(owner)?;
                let method = copy_method(alloc, method)?;
                Ok(Some(Member::Method(owner, method)))
            }
            None => Ok(None),
        },
    }
}

fn own_member(
    alloc: Global,
    owner: &QName,
    desc: Option<&Desc>,
    name: &Name,
) -> Result<Option<Member>, AllocError>
    ensures { IfOk result (λ r. option_map member_seen r ≡ spec.own_member owner.now (option_copied desc.entry) name.now) }
{
    match desc {
        Some(Desc::Record(record)) => field_or(
            alloc,
            owner,
            field_named(record.fields.as_slice(), name),
            method_named(record.methods.as_slice(), name),
        ),
        _ => Ok(None),
    }
}

// The same, in at most so many records.
#[tactic(auto, unfolding(ob_rules::specs::Shapes::member_within))]
fn member_within<T: Types>(
    alloc: Global,
    types: &T,
    left: u32,
    owner: &QName,
    name: &Name,
) -> Result<Option<Member>, AllocError>
    ensures { IfOk result (λ r. option_map member_seen r ≡ spec.member_within (T.types types.now) left owner.now name.now) }
{
    if left == 0 {
        return Ok(None);
    }
    match own_member(alloc, owner, types.desc_of(owner), name)? {
        Some(found) => Ok(Some(found)),
        None => match base_record(types, owner) {
            None => Ok(None),
            Some(base) => member_within(alloc, types, left - 1, base, name),
        },
    }
}

/// The member of that name of the record, or of the nearest of its bases that has one, at most
/// 200 bases up.
pub fn find_member<T: Types>(
    alloc: Global,
    types: &T,
    owner: &QName,
    name: &Name,
) -> Result<Option<Member>, AllocError>
    ensures { IfOk result (λ r. option_map member_seen r ≡ spec.member (T.types types.now) owner.now name.now) }
{
    member_within(alloc, types, 201, owner, name)
}
