//! What operands are.

ghost use Rattle.std.specs.Prelude.{◌≡◌};
ghost use Rattle.std.specs.Option.{option_copied};
ghost use Rattle.ob_cexpr_operator.specs.Pointed.{two_pointers, both_point, nil_constant};
ghost use Rattle.ob_rules.specs.Operators as spec;
ghost use Rattle.ob_rules.specs.Shapes as shapes;
ghost use Rattle.ob_rules.specs.Values as values;

use ob_cexpr_name::{array_type, has_text, is, is_char_array, is_pointer, width};
use ob_rules::Valued;
use ob_types::{
    Basic, ExprType, Signature, TypeRef, Types, Value, Width, extends_within, signature_within,
    signatures_match,
};

fn wider(a: Width, b: Width) -> Width
    ensures { result ≡ shapes.wider a b }
{
    match (a, b) {
        (Width::ShortInt, w) => w,
        (Width::Integer, Width::LongInt) => Width::LongInt,
        (Width::Integer, _) => Width::Integer,
        (Width::LongInt, _) => Width::LongInt,
    }
}

fn wider_of(a: Option<Width>, b: Option<Width>) -> Option<Width>
    ensures { result ≡ spec.wider_of a b }
{
    match (a, b) {
        (Some(a), Some(b)) => Some(wider(a, b)),
        _ => None,
    }
}

/// The smaller integer type that includes both.
pub fn integers<T: Types>(types: &T, a: &Valued, b: &Valued) -> Option<Width>
    ensures { result ≡ spec.integers (T.types types.now) a.now b.now }
{
    wider_of(width(types, a), width(types, b))
}

pub fn are<T: Types>(types: &T, wanted: Basic, a: &Valued, b: &Valued) -> bool
    ensures { result ≡ spec.are (T.types types.now) wanted a.now b.now }
{
    is(types, wanted, a) && is(types, wanted, b)
}

#[tactic(auto, using(crate::proofs::PointedLaws::no_chars, crate::proofs::PointedLaws::some_chars))]
fn is_chars<T: Types>(types: &T, x: &Valued) -> bool
    ensures { result ≡ values.is_chars (T.types types.now) x.now }
{
    match array_type(x) {
        None => false,
        Some(t) => is_char_array(types, t),
    }
}

/// Whether it is a string, a character constant, or an array of characters.
pub fn is_text<T: Types>(types: &T, x: &Valued) -> bool
    ensures { result ≡ spec.is_text (T.types types.now) x.now }
{
    is_chars(types, x) || has_text(x)
}

fn is_nil_constant(value: &Value) -> bool
    ensures { result ≡ nil_constant value.now }
{
    match value {
        Value::Nil => true,
        Value::Bool(_) | Value::Char(_) | Value::Int(_) | Value::Set(_) | Value::Str(_) => false,
    }
}

fn is_nil_kind(kind: &ExprType) -> bool
    ensures { result ≡ values.is_nil kind.now }
{
    match kind {
        ExprType::Nil => true,
        ExprType::Of(_) | ExprType::Str | ExprType::Procedure(_) | ExprType::Nothing => false,
    }
}

#[tactic(auto, using(crate::proofs::PointedLaws::constant_nil))]
fn is_nil(x: &Valued) -> bool
    ensures { result ≡ values.is_nil (values.type x.now) }
{
    match x {
        Valued::Constant(value) => is_nil_constant(value),
        Valued::Place(_) => false,
        Valued::Node(node) => is_nil_kind(&node.of),
    }
}

#[tactic(auto, using(crate::proofs::PointedLaws::no_pointer, crate::proofs::PointedLaws::some_pointer))]
fn points<T: Types>(types: &T, x: &Valued) -> bool
    ensures { result ≡ values.points (T.types types.now) (values.type x.now) }
{
    match array_type(x) {
        None => false,
        Some(t) => is_pointer(types, t),
    }
}

fn extend_either<T: Types>(types: &T, a: &TypeRef, b: &TypeRef) -> bool
    ensures { result ≡ two_pointers (T.types types.now) a.now b.now }
{
    is_pointer(types, a)
        && is_pointer(types, b)
        && (extends_within(types, a, b) || extends_within(types, b, a))
}

// Two pointers whose bases are the same or extend one another.
#[tactic(auto, using(crate::proofs::PointedLaws::first_unnamed, crate::proofs::PointedLaws::second_unnamed, crate::proofs::PointedLaws::both_named))]
fn both_point<T: Types>(types: &T, a: &Valued, b: &Valued) -> bool
    ensures { result ≡ both_point (T.types types.now) a.now b.now }
{
    match array_type(a) {
        None => false,
        Some(first) => match array_type(b) {
            None => false,
            Some(second) => extend_either(types, first, second),
        },
    }
}

pub fn are_pointers<T: Types>(types: &T, a: &Valued, b: &Valued) -> bool
    ensures { result ≡ spec.are_pointers (T.types types.now) a.now b.now }
{
    both_point(types, a, b) || (is_nil(a) && points(types, b)) || (is_nil(b) && points(types, a))
}

fn kind_signature<'a, T: Types>(types: &'a T, kind: &'a ExprType) -> Option<&'a Signature>
    ensures { option_copied result ≡ values.signature (T.types types.now) kind.now }
{
    match kind {
        ExprType::Of(t) => signature_within(types, t),
        ExprType::Procedure(signature) => Some(signature),
        ExprType::Str | ExprType::Nil | ExprType::Nothing => None,
    }
}

// The parameters of a procedure value.
#[tactic(auto, using(crate::proofs::PointedLaws::constant_signature))]
fn signature_in<'a, T: Types>(types: &'a T, x: &'a Valued) -> Option<&'a Signature>
    ensures { option_copied result ≡ values.signature (T.types types.now) (values.type x.now) }
{
    match x {
        Valued::Constant(_) => None,
        Valued::Place(place) => signature_within(types, &place.of),
        Valued::Node(node) => kind_signature(types, &node.of),
    }
}

fn both_match<T: Types>(types: &T, a: Option<&Signature>, b: Option<&Signature>) -> bool
    ensures { result ≡ spec.signatures_match (T.types types.now) (option_copied a.entry) (option_copied b.entry) }
{
    match a {
        None => false,
        Some(first) => match b {
            None => false,
            Some(second) => signatures_match(types, first, second),
        },
    }
}

pub fn are_procedures<T: Types>(types: &T, a: &Valued, b: &Valued) -> bool
    ensures { result ≡ spec.are_procedures (T.types types.now) a.now b.now }
{
    let first = signature_in(types, a);
    let second = signature_in(types, b);
    both_match(types, first, second)
        || (is_nil(a) && second.is_some())
        || (is_nil(b) && first.is_some())
}
