//! ASH of constants.

ghost use Rattle.std.specs.Prelude.{◌≡◌, ◌≤◌, ◌<◌, ◌^◌, ◌*ℤ◌, pos, negsuc, nat_le};
ghost use Rattle.ob_types.specs.Numbers.{shifted, quotient};
ghost use Rattle.ob_rules.specs.Constants as spec;

use crate::values::integer_in;
use ob_types::Value;

fn power(exponent: u32) -> u64
    requires { exponent ≤ 41 }
    ensures { result ≡ 2 ^ exponent }
{
    1 << exponent
}

fn long(n: i64) -> Option<Value>
    ensures { result ≡ spec.long n }
{
    if -2147483648 <= n && n <= 2147483647 {
        Some(Value::Int(n as i32))
    } else {
        None
    }
}

fn scaled(n: i32, places: u32) -> i64
    requires { places ≤ 31 }
    ensures { result ≡ n *ℤ pos (2 ^ places) }
{
    i64::from(n) * power(places) as i64
}

fn up(n: i32, places: u32) -> Option<Value>
    ensures { result ≡ spec.bounded_shift n (pos places) (nat_le places 31) }
{
    if places <= 31 {
        return long(scaled(n, places));
    }
    if n == 0 { Some(Value::Int(0)) } else { None }
}

fn halved(n: i32, places: u32) -> i64
    requires { places ≤ 41 }
    ensures { result ≡ quotient n (2 ^ places) }
{
    i64::from(n).div_euclid(power(places) as i64)
}

// By one place more than `places`.
fn down(n: i32, places: u32) -> Option<Value>
    ensures { result ≡ spec.shift_down n places (nat_le places 40) }
{
    if places <= 40 {
        long(halved(n, places + 1))
    } else {
        long(halved(n, 41))
    }
}

fn ash(n: i32, places: i32) -> Option<Value>
    ensures { result ≡ spec.ash n places }
{
    if places >= 0 {
        up(n, places as u32)
    } else {
        down(n, places.unsigned_abs() - 1)
    }
}

pub fn shifted(a: &Value, b: &Value) -> Option<Value>
    ensures { result ≡ spec.on_integers a.now b.now spec.ash }
{
    let first = integer_in(a)?;
    let second = integer_in(b)?;
    ash(first, second)
}
