//! Constants and the values of Rust that they stand for.

ghost use Rattle.std.specs.Prelude.{◌≡◌};
ghost use Rattle.std.specs.Option.{option_map};
ghost use Rattle.ob_types.specs.declared.value.Value.TheVariants as literal;
ghost use Rattle.ob_rules.specs.Constants as spec;
ghost use Rattle.ob_rules.specs.Predeclared as predeclared;

use ob_types::{Basic, Value};

pub fn truth(b: bool) -> Option<Value>
    ensures { result ≡ spec.truth b }
{
    Some(Value::Bool(b))
}

pub fn integer(n: Option<i32>) -> Option<Value>
    ensures { result ≡ option_map literal.Int n }
{
    match n {
        None => None,
        Some(n) => Some(Value::Int(n)),
    }
}

pub fn integer_in(value: &Value) -> Option<i32>
    ensures { result ≡ spec.integer_in value.now }
{
    match value {
        Value::Int(n) => Some(*n),
        _ => None,
    }
}

pub fn set_in(value: &Value) -> Option<u32>
    ensures { result ≡ spec.set_in value.now }
{
    match value {
        Value::Set(set) => Some(*set),
        _ => None,
    }
}

pub fn char_in(value: &Value) -> Option<u8>
    ensures { result ≡ spec.char_in value.now }
{
    match value {
        Value::Char(c) => Some(*c),
        _ => None,
    }
}

pub fn truth_in(value: &Value) -> Option<bool>
    ensures { result ≡ spec.truth_in value.now }
{
    match value {
        Value::Bool(b) => Some(*b),
        _ => None,
    }
}

/// The greatest, or the least, value of a basic type, as MAX and MIN give it.
pub fn extreme(max: bool, basic: Basic) -> Value
    ensures { result ≡ predeclared.extreme max basic }
{
    match basic {
        Basic::Boolean => Value::Bool(max),
        Basic::Char => Value::Char(if max { 255 } else { 0 }),
        Basic::ShortInt => Value::Int(if max { 127 } else { -128 }),
        Basic::Integer => Value::Int(if max { 32767 } else { -32768 }),
        Basic::LongInt => Value::Int(if max { 2147483647 } else { -2147483648 }),
        Basic::Set => Value::Int(if max { 31 } else { 0 }),
    }
}
