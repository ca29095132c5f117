//! Arithmetic on constants, within LONGINT.

ghost use Rattle.std.specs.Prelude.{◌≡◌, ◌+ℤ◌, ◌-ℤ◌, ◌*ℤ◌, neg_ℤ, pos, unsigned_abs};
ghost use Rattle.ob_types.specs.Numbers.{quotient, remainder, is_positive, is_odd, capital, element_in};
ghost use Rattle.ob_types.specs.declared.value.Value.TheVariants as literal;
ghost use Rattle.ob_rules.specs.Constants as spec;

use crate::values::{integer, integer_in, truth};
use ob_types::{Value, Width};

pub fn added(a: &Value, b: &Value) -> Option<Value>
    ensures { result ≡ spec.on_integers a.now b.now (λ x y. spec.long (x +ℤ y)) }
{
    let first = integer_in(a)?;
    let second = integer_in(b)?;
    integer(first.checked_add(second))
}

pub fn subtracted(a: &Value, b: &Value) -> Option<Value>
    ensures { result ≡ spec.on_integers a.now b.now (λ x y. spec.long (x -ℤ y)) }
{
    let first = integer_in(a)?;
    let second = integer_in(b)?;
    integer(first.checked_sub(second))
}

pub fn multiplied(a: &Value, b: &Value) -> Option<Value>
    ensures { result ≡ spec.on_integers a.now b.now (λ x y. spec.long (x *ℤ y)) }
{
    let first = integer_in(a)?;
    let second = integer_in(b)?;
    integer(first.checked_mul(second))
}

fn quotient_of(x: i32, y: i32) -> Option<Value>
    ensures { result ≡ spec.divided (is_positive y) (quotient x (unsigned_abs y)) }
{
    if y > 0 {
        Some(Value::Int(x.div_euclid(y)))
    } else {
        None
    }
}

fn remainder_of(x: i32, y: i32) -> Option<Value>
    ensures { result ≡ spec.divided (is_positive y) (remainder x (unsigned_abs y)) }
{
    if y > 0 {
        Some(Value::Int(x.rem_euclid(y)))
    } else {
        None
    }
}

pub fn divided(a: &Value, b: &Value) -> Option<Value>
    ensures { result ≡ spec.on_integers a.now b.now (λ x y. spec.divided (is_positive y) (quotient x (unsigned_abs y))) }
{
    let first = integer_in(a)?;
    let second = integer_in(b)?;
    quotient_of(first, second)
}

pub fn remaining(a: &Value, b: &Value) -> Option<Value>
    ensures { result ≡ spec.on_integers a.now b.now (λ x y. spec.divided (is_positive y) (remainder x (unsigned_abs y))) }
{
    let first = integer_in(a)?;
    let second = integer_in(b)?;
    remainder_of(first, second)
}

pub fn negated(n: i32) -> Option<Value>
    ensures { result ≡ spec.long (neg_ℤ n) }
{
    integer(n.checked_neg())
}

pub fn absolute(n: i32) -> Option<Value>
    ensures { result ≡ spec.long (pos (unsigned_abs n)) }
{
    if n < 0 {
        integer(n.checked_neg())
    } else {
        Some(Value::Int(n))
    }
}

pub fn shortened(width: Width, n: i32) -> Option<Value>
    ensures { result ≡ spec.integer width n }
{
    let fits = match width {
        Width::ShortInt => -128 <= n && n < 128,
        Width::Integer => -32768 <= n && n < 32768,
        Width::LongInt => true,
    };
    if fits { Some(Value::Int(n)) } else { None }
}

pub fn odd(n: i32) -> Option<Value>
    ensures { result ≡ spec.truth (is_odd n) }
{
    truth(n.unsigned_abs() % 2 == 1)
}

pub fn character(n: i32) -> Option<Value>
    ensures { result ≡ spec.byte_of n }
{
    if 0 <= n && n < 256 {
        Some(Value::Char(n as u8))
    } else {
        None
    }
}

pub fn capital_of(c: u8) -> u8
    ensures { result ≡ capital c }
{
    if 97 <= c && c <= 122 { c - 32 } else { c }
}
