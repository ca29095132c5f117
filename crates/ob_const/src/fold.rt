//! Operations on constants, folded as the language says.

ghost use Rattle.std.specs.Prelude.{◌≡◌};
ghost use Rattle.ob_rules.specs.Constants as spec;

use crate::numbers::{
    absolute, added, capital_of, character, divided, multiplied, negated, odd, remaining,
    shortened, subtracted,
};
use crate::relations::related;
use crate::sets::{complement, differing, inside, met, ranged, single, united, without};
use crate::shifts::shifted;
use crate::values::{char_in, integer_in, set_in, truth, truth_in};
use ob_types::{Binary, Connective, Unary, Value};

/// What an operation on one value makes of a constant; none where it would trap or leave LONGINT,
/// or where the constant is of another kind. Takes no memory.
pub fn fold_one(op: Unary, value: &Value) -> Option<Value>
    ensures { result ≡ spec.fold_one op value.now }
{
    match op {
        Unary::Negate(_) => negated(integer_in(value)?),
        Unary::Not => truth(!truth_in(value)?),
        Unary::Complement => Some(complement(set_in(value)?)),
        Unary::Abs(_) => absolute(integer_in(value)?),
        Unary::Cap => Some(Value::Char(capital_of(char_in(value)?))),
        Unary::Chr => character(integer_in(value)?),
        Unary::Long(_) => Some(Value::Int(integer_in(value)?)),
        Unary::Odd => odd(integer_in(value)?),
        Unary::Ord => Some(Value::Int(i32::from(char_in(value)?))),
        Unary::Short(width) => shortened(width, integer_in(value)?),
        Unary::Element => single(integer_in(value)?),
    }
}

/// What an operation on two values makes of constants; none where it would trap or leave LONGINT,
/// or where the constants are of another kind. Takes no memory.
pub fn fold_two(op: Binary, a: &Value, b: &Value) -> Option<Value>
    ensures { result ≡ spec.fold_two op a.now b.now }
{
    match op {
        Binary::Add(_) => added(a, b),
        Binary::Subtract(_) => subtracted(a, b),
        Binary::Multiply(_) => multiplied(a, b),
        Binary::Quotient(_) => divided(a, b),
        Binary::Remainder(_) => remaining(a, b),
        Binary::Union => united(a, b),
        Binary::Difference => without(a, b),
        Binary::Intersection => met(a, b),
        Binary::SymmetricDifference => differing(a, b),
        Binary::Range => ranged(a, b),
        Binary::In => inside(a, b),
        Binary::Ash => shifted(a, b),
        Binary::Compare(comparison, _) => related(comparison, a, b),
    }
}

/// `&` and `OR` of constants; none where one is no truth value. Takes no memory.
pub fn fold_logical(op: Connective, a: &Value, b: &Value) -> Option<Value>
    ensures { result ≡ spec.fold_logical op a.now b.now }
{
    let first = truth_in(a)?;
    let second = truth_in(b)?;
    match op {
        Connective::And => truth(first && second),
        Connective::Or => truth(first || second),
    }
}
