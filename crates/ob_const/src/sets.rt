//! Operations on sets that are constants.

ghost use Rattle.std.specs.Prelude.{◌≡◌, ◌≤◌, ◌<◌, ◌^◌, ◌-◌, bit_or, bit_and, bit_xor, IfSome};
ghost use Rattle.ob_types.specs.Numbers.{element_in, has_bit};
ghost use Rattle.ob_rules.specs.Constants as spec;
ghost use Rattle.ob_types.specs.declared.value.Value.TheVariants as literal;

use crate::values::{integer_in, set_in};
use ob_types::Value;

pub fn united(a: &Value, b: &Value) -> Option<Value>
    ensures { result ≡ spec.on_sets a.now b.now bit_or }
{
    let first = set_in(a)?;
    let second = set_in(b)?;
    Some(Value::Set(first | second))
}

pub fn met(a: &Value, b: &Value) -> Option<Value>
    ensures { result ≡ spec.on_sets a.now b.now bit_and }
{
    let first = set_in(a)?;
    let second = set_in(b)?;
    Some(Value::Set(first & second))
}

pub fn without(a: &Value, b: &Value) -> Option<Value>
    ensures { result ≡ spec.on_sets a.now b.now (λ x y. bit_and x (spec.all_elements - y)) }
{
    let first = set_in(a)?;
    let second = set_in(b)?;
    Some(Value::Set(first & (u32::MAX - second)))
}

pub fn differing(a: &Value, b: &Value) -> Option<Value>
    ensures { result ≡ spec.on_sets a.now b.now bit_xor }
{
    let first = set_in(a)?;
    let second = set_in(b)?;
    Some(Value::Set(first ^ second))
}

pub fn complement(set: u32) -> Value
    ensures { result ≡ literal.Set (spec.all_elements - set) }
{
    Value::Set(u32::MAX - set)
}

/// The element of a set that a number is.
fn element(n: i32) -> Option<u32>
    ensures is { result ≡ element_in n }
    ensures within { IfSome result (λ i. i < 32) }
{
    if 0 <= n && n < 32 {
        Some(n as u32)
    } else {
        None
    }
}

fn power(exponent: u32) -> u64
    requires { exponent ≤ 32 }
    ensures { result ≡ 2 ^ exponent }
{
    1 << exponent
}

fn elements(i: u32, j: u32) -> Value
    requires first { i < 32 }
    requires last { j < 32 }
    ensures { result ≡ spec.elements i j }
{
    if i > j {
        return Value::Set(0);
    }
    let bits = power(j + 1) - power(i);
    Value::Set(bits as u32)
}

pub fn single(n: i32) -> Option<Value>
    ensures { result ≡ spec.of_nat (λ i. spec.elements i i) (element_in n) }
{
    let i = element(n)?;
    Some(elements(i, i))
}

fn range_of(x: i32, y: i32) -> Option<Value>
    ensures { result ≡ spec.of_nats spec.elements (element_in x) (element_in y) }
{
    let i = element(x)?;
    let j = element(y)?;
    Some(elements(i, j))
}

pub fn ranged(a: &Value, b: &Value) -> Option<Value>
    ensures { result ≡ spec.on_integers a.now b.now (λ x y. spec.of_nats spec.elements (element_in x) (element_in y)) }
{
    let first = integer_in(a)?;
    let second = integer_in(b)?;
    range_of(first, second)
}

fn has(set: u32, i: u32) -> bool
    requires { i < 32 }
    ensures { result ≡ has_bit set i }
{
    (set >> i) % 2 == 1
}

fn contained(n: i32, set: u32) -> Option<Value>
    ensures { result ≡ spec.of_nat (λ i. literal.Bool (has_bit set i)) (element_in n) }
{
    let i = element(n)?;
    Some(Value::Bool(has(set, i)))
}

pub fn inside(a: &Value, b: &Value) -> Option<Value>
    ensures { result ≡ spec.and_so (spec.integer_in a.now) (λ x. spec.and_so (spec.set_in b.now) (λ s. spec.of_nat (λ i. literal.Bool (has_bit s i)) (element_in x))) }
{
    let first = integer_in(a)?;
    let second = set_in(b)?;
    contained(first, second)
}
