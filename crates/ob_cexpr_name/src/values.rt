//! What later rules ask of a value.

ghost use Rattle.std.specs.Prelude.{◌≡◌, is_some, Some, IfOk};
ghost use Rattle.std.specs.Option.{option_copied, option_map};
ghost use Rattle.ob_types.specs.Assigning.{characters};
ghost use Rattle.ob_types.specs.TypedKinds.{constant_type};
ghost use Rattle.ob_rules.specs.Shapes as shapes;
ghost use Rattle.ob_rules.specs.Values as spec;
ghost use Rattle.ob_cexpr_name.specs.Basics.{basic_in, computed_type, kind_basic};

use crate::shapes::basic_of;
use ob_rules::Valued;
use ob_tree::List;
use ob_types::{Basic, ExprType, TypeRef, Types, Value, Width, signature_within, signatures_match};
use ob_types_assign::{constant_fits, takes_nil, type_fits};
use ob_types_trees::ExprTree;
use std::alloc::{AllocError, Global};

fn width_of(basic: Option<Basic>) -> Option<Width>
    ensures { result ≡ shapes.width_of basic }
{
    match basic {
        Some(Basic::ShortInt) => Some(Width::ShortInt),
        Some(Basic::Integer) => Some(Width::Integer),
        Some(Basic::LongInt) => Some(Width::LongInt),
        _ => None,
    }
}

// The basic type of what is no string, NIL or procedure.
fn basic_of_constant(value: &Value) -> Option<Basic>
    ensures { result ≡ kind_basic (constant_type value.now) }
{
    match value {
        Value::Bool(_) => Some(Basic::Boolean),
        Value::Char(_) => Some(Basic::Char),
        Value::Int(n) => Some(if -128 <= *n && *n < 128 {
            Basic::ShortInt
        } else if -32768 <= *n && *n < 32768 {
            Basic::Integer
        } else {
            Basic::LongInt
        }),
        Value::Set(_) => Some(Basic::Set),
        Value::Str(_) | Value::Nil => None,
    }
}

fn basic_of_kind<T: Types>(types: &T, kind: &ExprType) -> Option<Basic>
    ensures { result ≡ basic_in (T.types types.now) kind.now }
{
    match kind {
        ExprType::Of(t) => basic_of(types, t),
        ExprType::Str | ExprType::Nil | ExprType::Procedure(_) | ExprType::Nothing => None,
    }
}

/// The basic type of a value.
#[tactic(auto, using(crate::proofs::BasicLaws::of_constant))]
pub fn basic<T: Types>(types: &T, x: &Valued) -> Option<Basic>
    ensures { result ≡ basic_in (T.types types.now) (spec.type x.now) }
{
    match x {
        Valued::Constant(value) => basic_of_constant(value),
        Valued::Place(place) => basic_of(types, &place.of),
        Valued::Node(node) => basic_of_kind(types, &node.of),
    }
}

/// The width of an integer.
#[tactic(auto, using(crate::proofs::BasicLaws::width_by))]
pub fn width<T: Types>(types: &T, x: &Valued) -> Option<Width>
    ensures { result ≡ spec.width (T.types types.now) x.now }
{
    width_of(basic(types, x))
}

/// Whether it is an integer.
pub fn is_integer<T: Types>(types: &T, x: &Valued) -> bool
    ensures { result ≡ spec.is_integer (T.types types.now) x.now }
{
    width(types, x).is_some()
}

/// Whether it is of that basic type.
#[tactic(auto, using(crate::proofs::BasicLaws::is_by))]
pub fn is<T: Types>(types: &T, wanted: Basic, x: &Valued) -> bool
    ensures { result ≡ spec.is (T.types types.now) wanted x.now }
{
    match basic(types, x) {
        None => false,
        Some(found) => found == wanted,
    }
}

/// Its node.
pub fn tree_of(x: Valued) -> ExprTree
    ensures { result.inner ≡ spec.tree x }
{
    match x {
        Valued::Constant(value) => ExprTree::constant(value),
        Valued::Place(place) => ExprTree::designator(place.into_designator()),
        Valued::Node(node) => node.into_tree(),
    }
}

/// Whether it is a string or a character constant.
pub fn has_text(x: &Valued) -> bool
    ensures { result ≡ is_some (spec.text_of x.now) }
{
    match x {
        Valued::Constant(Value::Str(_) | Value::Char(_)) => true,
        Valued::Constant(Value::Bool(_) | Value::Int(_) | Value::Set(_) | Value::Nil)
        | Valued::Place(_)
        | Valued::Node(_) => false,
    }
}

// Whether a variable of the type takes a value of this type, that is no constant.
fn takes_value_of<T: Types>(types: &T, t: &TypeRef, kind: &ExprType) -> bool
    ensures { result ≡ spec.takes_value_of (T.types types.now) t.now kind.now }
{
    match kind {
        ExprType::Of(of) => type_fits(types, t, of),
        ExprType::Nil => takes_nil(types, t),
        ExprType::Procedure(signature) => match signature_within(types, t) {
            None => false,
            Some(wanted) => signatures_match(types, signature, wanted),
        },
        ExprType::Str | ExprType::Nothing => false,
    }
}

/// Whether a variable of the type takes the value.
pub fn fits<T: Types>(types: &T, t: &TypeRef, x: &Valued) -> bool
    ensures { result ≡ spec.fits (T.types types.now) t.now x.now }
{
    match x {
        Valued::Constant(value) => constant_fits(types, t, value),
        Valued::Place(place) => type_fits(types, t, &place.of),
        Valued::Node(node) => takes_value_of(types, t, &node.of),
    }
}

/// Its type, where it is one with a name. That of a constant is none here, though it is a basic one.
pub fn array_type(x: &Valued) -> Option<&TypeRef>
    ensures { option_copied result ≡ computed_type x.now }
{
    match x {
        Valued::Constant(_) => None,
        Valued::Place(place) => Some(&place.of),
        Valued::Node(node) => match &node.of {
            ExprType::Of(t) => Some(t),
            ExprType::Str | ExprType::Nil | ExprType::Procedure(_) | ExprType::Nothing => None,
        },
    }
}

fn text_constant(alloc: Global, value: Value) -> Result<ExprTree, AllocError>
    ensures { IfOk result (λ r. r.inner ≡ spec.text_tree (spec.constant value)) }
{
    match &value {
        Value::Char(c) => {
            let text = List::from_slice(alloc, &[*c])?;
            Ok(ExprTree::constant(Value::Str(text)))
        }
        Value::Bool(_) | Value::Int(_) | Value::Set(_) | Value::Str(_) | Value::Nil => {
            Ok(ExprTree::constant(value))
        }
    }
}

/// Its node, where it serves as an array: that of a character is a string.
pub fn text_tree(alloc: Global, x: Valued) -> Result<ExprTree, AllocError>
    ensures { IfOk result (λ r. r.inner ≡ spec.text_tree x) }
{
    match x {
        Valued::Constant(value) => text_constant(alloc, value),
        Valued::Place(place) => Ok(tree_of(Valued::Place(place))),
        Valued::Node(node) => Ok(tree_of(Valued::Node(node))),
    }
}
