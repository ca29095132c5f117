//! Which values may be assigned to which types.

ghost use Rattle.std.specs.Prelude.{◌≡◌, ◌↔◌, IsTrue, Option, Some};
ghost use Rattle.std.specs.Option.{option_copied};
ghost use Rattle.ob_types.specs.declared.types.TypeRef.TheVariants as ref;
ghost use Rattle.ob_types.specs.declared.types.Basic.TheVariants as basic;
ghost use Rattle.ob_types.specs.declared.value.Value.TheVariants as literal;
ghost use Rattle.ob_types.specs.Maps.{IsHeld};
ghost use Rattle.ob_types.specs.Relations.{is_open, IsGrounded};
ghost use Rattle.ob_types.specs.Tests.{same_at, shape_at, target};
ghost use Rattle.ob_types.specs.TypedKinds.{of_basic, of_width, unary_type, binary_type, result_type, designator_type, expr_type};
ghost use Rattle.ob_types.specs.TypedView.{expr_view};
ghost use Rattle.ob_types.specs.Assigning.{includes, is_extensible, has_nil, Assignable, IsTypeHeld};
ghost use Rattle.ob_types.specs.AssigningTests.{described, is_at, widens, takes_type, has_room, takes_text, is_value, takes_procedure, takes_constant, takes_kind, takes};

use ob_format::is_name;
use ob_tree::QName;
use ob_types::{
    Basic, Binary, Desc, Designator, Signature, TypeRef, TypedExpr, Types, Unary, Value, Width,
    extends_within, is_same_at, shape_of, signature_within, signatures_match, target_within,
};

// What the map has of the type that t stands for.
fn shape_within<'a, T: Types>(types: &'a T, t: &'a TypeRef) -> Option<&'a Desc>
    ensures { option_copied result ≡ shape_at (T.types types.now) (target (T.types types.now) 201 t.now) }
{
    shape_of(types, target_within(types, t))
}

fn stands_for_open<T: Types>(types: &T, t: &TypeRef) -> bool
    ensures { result ≡ is_at (T.types types.now) is_open t.now }
{
    matches!(shape_within(types, t), Some(Desc::OpenArray(_, _)))
}

fn stands_for_extensible<T: Types>(types: &T, t: &TypeRef) -> bool
    ensures { result ≡ is_at (T.types types.now) is_extensible t.now }
{
    matches!(
        shape_within(types, t),
        Some(Desc::Record(_) | Desc::Pointer(_, _))
    )
}

/// Whether a variable of the type takes NIL. Over any map. Takes no memory.
pub fn takes_nil<T: Types>(types: &T, t: &TypeRef) -> bool
    ensures { result ≡ is_at (T.types types.now) has_nil t.now }
{
    matches!(
        shape_within(types, t),
        Some(Desc::Pointer(_, _) | Desc::ProcType(_, _))
    )
}

fn does_include(wide: Basic, narrow: Basic) -> bool
    ensures { result ≡ includes wide narrow }
{
    match wide {
        Basic::LongInt => matches!(narrow, Basic::ShortInt | Basic::Integer),
        Basic::Integer => matches!(narrow, Basic::ShortInt),
        _ => false,
    }
}

fn is_wider(wide: &TypeRef, narrow: &TypeRef) -> bool
    ensures { result ≡ widens wide.now narrow.now }
{
    match (wide, narrow) {
        (TypeRef::Basic(first), TypeRef::Basic(second)) => does_include(*first, *second),
        _ => false,
    }
}

/// Whether a variable of the type `v` takes a value of the type `t`. Over any map. Takes no
/// memory.
#[tactic(auto, unfolding(ob_types::specs::AssigningTests::takes_type))]
pub fn type_fits<T: Types>(types: &T, v: &TypeRef, t: &TypeRef) -> bool
    ensures { result ≡ takes_type (T.types types.now) v.now t.now }
{
    if is_same_at(types, t, v) && !stands_for_open(types, v) {
        return true;
    }
    if is_wider(target_within(types, v), target_within(types, t)) {
        return true;
    }
    stands_for_extensible(types, v) && extends_within(types, t, v)
}

fn basic_fits<T: Types>(types: &T, v: &TypeRef, basic: Basic) -> bool
    ensures { result ≡ takes_type (T.types types.now) v.now (ref.Basic basic) }
{
    let t = TypeRef::Basic(basic);
    type_fits(types, v, &t)
}

fn is_char<T: Types>(types: &T, t: &TypeRef) -> bool
    ensures { result ≡ same_at (T.types types.now) t.now (ref.Basic basic.Char) }
{
    let character = TypeRef::Basic(Basic::Char);
    is_same_at(types, t, &character)
}

fn holds_text<T: Types>(types: &T, desc: &Desc, count: usize) -> bool
    ensures { result ≡ has_room (T.types types.now) (Some desc.now) count }
{
    match desc {
        Desc::Array(_, length, of) => count < *length as usize && is_char(types, of),
        _ => false,
    }
}

// Whether a variable of the type v takes a string of so many characters.
#[tactic(auto, unfolding(ob_types::specs::AssigningTests::takes_text))]
fn text_fits<T: Types>(types: &T, v: &TypeRef, count: usize) -> bool
    ensures { result ≡ takes_text (T.types types.now) v.now count }
{
    match shape_within(types, v) {
        None => false,
        Some(desc) => holds_text(types, desc, count),
    }
}

/// Whether a procedure of that name may be a value: one of module level, not of Out.
pub fn is_plain(name: &QName) -> bool
    ensures { result ≡ is_value name.now }
{
    is_name(name.object.as_bytes()) && name.module.as_bytes() != b"Out".as_slice()
}

// Whether a variable of the type v takes the procedure of that name.
#[tactic(auto, unfolding(ob_types::specs::AssigningTests::takes_procedure))]
fn procedure_fits<T: Types>(types: &T, v: &TypeRef, name: &QName, signature: &Signature) -> bool
    ensures { result ≡ takes_procedure (T.types types.now) v.now name.now signature.now }
{
    if !is_plain(name) {
        return false;
    }
    match signature_within(types, v) {
        None => false,
        Some(wanted) => signatures_match(types, signature, wanted),
    }
}

/// The basic type of integers of that width.
pub fn basic_of(width: Width) -> Basic
    ensures { of_basic result ≡ of_width width }
{
    match width {
        Width::ShortInt => Basic::ShortInt,
        Width::Integer => Basic::Integer,
        Width::LongInt => Basic::LongInt,
    }
}

/// The basic type that the operation gives.
pub fn basic_of_unary(op: Unary) -> Basic
    ensures { of_basic result ≡ unary_type op }
{
    match op {
        Unary::Negate(width) | Unary::Abs(width) | Unary::Long(width) | Unary::Short(width) => {
            basic_of(width)
        }
        Unary::Not | Unary::Odd => Basic::Boolean,
        Unary::Complement | Unary::Element => Basic::Set,
        Unary::Cap | Unary::Chr => Basic::Char,
        Unary::Ord => Basic::Integer,
    }
}

/// The basic type that the operation gives.
pub fn basic_of_binary(op: Binary) -> Basic
    ensures { of_basic result ≡ binary_type op }
{
    match op {
        Binary::Add(width)
        | Binary::Subtract(width)
        | Binary::Multiply(width)
        | Binary::Quotient(width)
        | Binary::Remainder(width) => basic_of(width),
        Binary::Union
        | Binary::Difference
        | Binary::Intersection
        | Binary::SymmetricDifference
        | Binary::Range => Basic::Set,
        Binary::In | Binary::Compare(_, _) => Basic::Boolean,
        Binary::Ash => Basic::LongInt,
    }
}

// Whether a variable of the type v takes an integer constant.
fn integer_fits<T: Types>(types: &T, v: &TypeRef, value: i32) -> bool
    ensures { result ≡ takes_constant (T.types types.now) v.now (literal.Int value) }
{
    if -128 <= value && value < 128 {
        basic_fits(types, v, Basic::ShortInt)
    } else if -32768 <= value && value < 32768 {
        basic_fits(types, v, Basic::Integer)
    } else {
        basic_fits(types, v, Basic::LongInt)
    }
}

/// Whether a variable of the type `v` takes the constant. Over any map. Takes no memory.
pub fn constant_fits<T: Types>(types: &T, v: &TypeRef, value: &Value) -> bool
    ensures { result ≡ takes_constant (T.types types.now) v.now value.now }
{
    match value {
        Value::Bool(_) => basic_fits(types, v, Basic::Boolean),
        Value::Char(_) => text_fits(types, v, 1) || basic_fits(types, v, Basic::Char),
        Value::Int(n) => integer_fits(types, v, *n),
        Value::Set(_) => basic_fits(types, v, Basic::Set),
        Value::Str(text) => {
            let count = text.as_slice().len();
            text_fits(types, v, count) || (count == 1 && basic_fits(types, v, Basic::Char))
        }
        Value::Nil => takes_nil(types, v),
    }
}

#[tactic(auto, using(ob_types::proofs::TypedViews::view_variable, ob_types::proofs::TypedViews::view_field, ob_types::proofs::TypedViews::view_index, ob_types::proofs::TypedViews::view_deref, ob_types::proofs::TypedViews::view_guard))]
fn type_of_designator(designator: &Designator) -> &TypeRef
    ensures { result.now ≡ designator_type designator.now }
{
    match designator {
        Designator::Variable { of, .. } => of,
        Designator::Field { of, .. } => of,
        Designator::Index { of, .. } => of,
        Designator::Deref { of, .. } => of,
        Designator::Guard { of, .. } => of,
    }
}

fn result_fits<T: Types>(types: &T, v: &TypeRef, found: &Option<TypeRef>) -> bool
    ensures { result ≡ takes_kind (T.types types.now) v.now (result_type found.now) }
{
    match found {
        None => false,
        Some(t) => type_fits(types, v, t),
    }
}

fn value_fits<T: Types>(types: &T, v: &TypeRef, value: &TypedExpr) -> bool
    ensures { result ≡ takes (T.types types.now) v.now (expr_view value.now) }
{
    match value {
        TypedExpr::Constant(constant) => constant_fits(types, v, constant),
        TypedExpr::Designator(designator) => { type_fits(types, v, type_of_designator(designator)) }
        TypedExpr::Procedure { name, signature } => procedure_fits(types, v, name, signature),
        TypedExpr::Unary { op, .. } => basic_fits(types, v, basic_of_unary(*op)),
        TypedExpr::Binary { op, .. } => basic_fits(types, v, basic_of_binary(*op)),
        TypedExpr::Logical { .. }
        | TypedExpr::CompareTexts { .. }
        | TypedExpr::IsPointer { .. }
        | TypedExpr::IsRecord { .. } => basic_fits(types, v, Basic::Boolean),
        TypedExpr::Length(_) => basic_fits(types, v, Basic::LongInt),
        TypedExpr::Call { result, .. } | TypedExpr::CallVariable { result, .. } => {
            result_fits(types, v, result)
        }
    }
}

/// Whether the value is assignable to a variable of the type `target`: the types are the same and
/// no open arrays; both are integers and the variable's type includes the value's; both are
/// records or both pointers, and the value's type extends the variable's; the value is NIL and
/// the variable of a pointer or procedure type; the value is a procedure of module level, not of
/// Out, whose parameter list matches; or the value is a string and the variable an array of more
/// characters. A constant has the smallest integer type that has it, and a character constant is
/// a string of one character. Takes no memory.
pub fn assignable<T: Types>(types: &T, target: &TypeRef, value: &TypedExpr) -> bool
    requires grounded { IsGrounded (T.types types.now) }
    requires target { IsHeld (T.types types.now) target.now }
    requires value { IsTypeHeld (T.types types.now) (expr_type value.now) }
    ensures { IsTrue result ↔ Assignable (T.types types.now) target.now (expr_view value.now) }
{
    value_fits(types, target, value)
}
