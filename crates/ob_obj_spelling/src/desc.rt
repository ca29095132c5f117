//! Descriptions.

ghost use Rattle.std.specs.Prelude.{◌≡◌, true, IfSome, IsTrue};
ghost use Rattle.std.specs.List.{AllByRecursion};
ghost use Rattle.ob_format.specs.Order.{rises};
ghost use Rattle.ob_types.specs.declared.desc.Desc.TheVariants as desc;
ghost use Rattle.ob_desc.specs.Grammar.{dotted, type_fits, param, signature, value_fits, IsByte, field, method, members, is_shown, by_place, by_number, IsSpelled};

use ob_format::{is_name, is_object_name};
use ob_tree::{Mark, QName};
use ob_types::{Desc, Field, Method, Mode, RecordDesc, Signature, TypeRef, Value};
use std::cmp::Ordering;

/// One more than the greatest place, number and count of a text.
const SMALL: u32 = 2_147_483_648;

fn is_dotted(name: &QName) -> bool
    ensures { result ≡ true → dotted.fits name.now }
{
    is_name(name.module.as_bytes()) && is_object_name(name.object.as_bytes())
}

fn is_type(t: &TypeRef) -> bool
    ensures { result ≡ true → type_fits t.now }
{
    match t {
        TypeRef::Basic(_) => true,
        TypeRef::Named(name) => is_dotted(name),
    }
}

fn is_base(t: &Option<TypeRef>) -> bool
    ensures { result ≡ true → IfSome t.now type_fits }
{
    match t {
        None => true,
        Some(t) => is_type(t),
    }
}

fn are_params(params: &[(Mode, TypeRef)]) -> bool
    ensures { result ≡ true → AllByRecursion param.fits params.now }
{
    let mut rest = params;
    while let [first, more @ ..] = rest {
        if !is_type(&first.1) {
            return false;
        }
        rest = more;
    }
    true
}

fn is_signature(of: &Signature) -> bool
    ensures { result ≡ true → signature.fits of.now }
{
    are_params(of.params.as_slice()) && is_base(&of.result)
}

// Bytes are bytes.
fn are_bytes(text: &[u8]) -> bool
    ensures { result ≡ true → AllByRecursion IsByte text.now }
{
    let mut rest = text;
    while let [first, more @ ..] = rest {
        let _byte = *first;
        rest = more;
    }
    true
}

fn is_value(value: &Value) -> bool
    ensures { result ≡ true → value_fits value.now }
{
    match value {
        Value::Bool(_) => true,
        Value::Char(c) => {
            let _byte = *c;
            true
        }
        Value::Int(n) => {
            let _number = *n;
            true
        }
        Value::Set(s) => {
            let _set = *s;
            true
        }
        Value::Str(text) => text.len() != 1 && are_bytes(text.as_slice()),
        Value::Nil => false,
    }
}

fn is_shown(mark: Mark) -> bool
    ensures { result ≡ true → IsTrue (is_shown mark) }
{
    match mark {
        Mark::Full => true,
        Mark::ReadOnly => true,
        Mark::Hidden => false,
    }
}

#[tactic(auto, unfolding(ob_desc::specs::Grammar::field))]
fn is_field(of: &Field) -> bool
    ensures { result ≡ true → field.fits of.now }
{
    is_name(of.name.as_bytes()) && is_shown(of.mark) && of.place < SMALL && is_type(&of.of)
}

fn are_fields(fields: &[Field]) -> bool
    ensures { result ≡ true → AllByRecursion field.fits fields.now }
{
    let mut rest = fields;
    while let [first, more @ ..] = rest {
        if !is_field(first) {
            return false;
        }
        rest = more;
    }
    true
}

#[tactic(auto, unfolding(ob_desc::specs::Grammar::method))]
fn is_method(of: &Method) -> bool
    ensures { result ≡ true → method.fits of.now }
{
    match of.mark {
        Mark::Full => {
            is_name(of.name.as_bytes()) && of.number < SMALL && is_signature(&of.signature)
        }
        Mark::ReadOnly => false,
        Mark::Hidden => false,
    }
}

fn are_methods(methods: &[Method]) -> bool
    ensures { result ≡ true → AllByRecursion method.fits methods.now }
{
    let mut rest = methods;
    while let [first, more @ ..] = rest {
        if !is_method(first) {
            return false;
        }
        rest = more;
    }
    true
}

fn compare_places(a: &Field, b: &Field) -> Ordering
    ensures { result ≡ by_place a.now b.now }
{
    let order = a.place.cmp(&b.place);
    if order != Ordering::Equal {
        return order;
    }
    a.name.as_bytes().cmp(b.name.as_bytes())
}

fn fields_rise(fields: &[Field]) -> bool
    ensures { result ≡ rises by_place fields.now }
{
    let mut rest = fields;
    while let [first, second, ..] = rest {
        if compare_places(first, second) != Ordering::Less {
            return false;
        }
        rest = &rest[1..];
    }
    true
}

fn methods_rise(methods: &[Method]) -> bool
    ensures { result ≡ rises by_number methods.now }
{
    let mut rest = methods;
    while let [first, second, ..] = rest {
        if first.number.cmp(&second.number) != Ordering::Less {
            return false;
        }
        rest = &rest[1..];
    }
    true
}

#[tactic(auto, using(crate::proofs::Sorted::rises_sorted, crate::proofs::Sorted::places_total, crate::proofs::Sorted::numbers_total))]
fn has_members(of: &RecordDesc) -> bool
    ensures { result ≡ true → members.fits (of.now.fields, of.now.methods) }
{
    let fields = of.fields.as_slice();
    let methods = of.methods.as_slice();
    are_fields(fields) && are_methods(methods) && fields_rise(fields) && methods_rise(methods)
}

fn is_record(module: &[u8], name: &[u8], of: &RecordDesc) -> bool
    ensures { dotted.fits (record { «module» = «module».now; object = name.now }) → result ≡ true → IsSpelled (record { «module» = «module».now; object = name.now }) (desc.Record of.now) }
{
    of.words < SMALL && of.procedures < SMALL && is_base(&of.base) && has_members(of)
}

/// Whether it is found that the description of an object of that module and name has texts. Takes no
/// memory.
pub fn has_texts(module: &[u8], name: &[u8], of: &Desc) -> bool
    ensures { result ≡ true → IsSpelled (record { «module» = «module».now; object = name.now }) of.now }
{
    if !is_name(module) || !is_object_name(name) {
        return false;
    }
    match of {
        Desc::Const(value) => is_value(value),
        Desc::Var(_, t) => is_name(name) && is_type(t),
        Desc::Proc(signature) => is_name(name) && is_signature(signature),
        Desc::Alias(_, t) => is_type(t),
        Desc::Array(_, length, t) => 0 < *length && *length < SMALL && is_type(t),
        Desc::OpenArray(_, t) => is_type(t),
        Desc::Pointer(_, t) => is_type(t),
        Desc::ProcType(_, signature) => is_signature(signature),
        Desc::Record(described) => is_record(module, name, described),
    }
}
