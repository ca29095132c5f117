//! The values of literals.

ghost use Rattle.std.specs.Prelude.{◌≡◌, ◌≤◌, ◌-◌, pos, nat_le, length, IfOk};
ghost use Rattle.ob_types.specs.declared.value.Value.TheVariants as literal;
ghost use Rattle.ob_rules.specs.Constants.{text_value, when};
ghost use Rattle.ob_rules.specs.Expressions.{integer_text, integer_by, marked, decimal, number_in, digit, is_marked};

use ob_tree::List;
use ob_types::Value;
use std::alloc::{AllocError, Global};

fn digit(c: u8) -> u8
    ensures { result ≡ digit c }
{
    if c <= 57 {
        c.saturating_sub(48)
    } else {
        c - 55
    }
}

// The number with these digits; none where it is above the limit.
#[tactic(auto, using(crate::proofs::Digits::grows))]
fn number(base: u64, text: &[u8], limit: u64) -> Option<u64>
    requires base { base ≤ 16 }
    requires some { 1 ≤ base }
    requires limit { limit ≤ 2147483647 }
    ensures { result ≡ when (nat_le (number_in base 0 text.now) limit) (number_in base 0 text.now) }
{
    let mut n = 0;
    'digits: for c in text {
        n = n * base + u64::from(digit(*c));
        if n > limit {
            return None;
        }
    }
    Some(n)
}

// Without the mark at its end.
#[tactic(auto, using(crate::proofs::Digits::marked_but_last))]
fn unmarked(text: &[u8]) -> &[u8]
    ensures { marked 0 text.now ≡ number_in 16 0 result.now }
{
    if text.is_empty() {
        return text;
    }
    &text[..text.len() - 1]
}

#[tactic(auto, using(crate::proofs::Digits::last_is))]
fn is_hexadecimal(text: &[u8]) -> bool
    ensures { result ≡ is_marked text.now }
{
    if text.is_empty() {
        return false;
    }
    text[text.len() - 1] >= 72
}

fn integer_number(text: &[u8]) -> Option<u64>
    ensures { result ≡ when (nat_le (integer_text text.now) 2147483647) (integer_text text.now) }
{
    if is_hexadecimal(text) {
        number(16, unmarked(text), 2147483647)
    } else {
        number(10, text, 2147483647)
    }
}

/// The integer of a literal; none where it is above 2147483647. Takes no memory.
pub fn integer_value(text: &[u8]) -> Option<Value>
    ensures { result ≡ when (nat_le (integer_text text.now) 2147483647) (literal.Int (pos (integer_text text.now))) }
{
    let n = integer_number(text)?;
    Some(Value::Int(n as i32))
}

/// The character of a literal with its number; none where it is above 0FFX. Takes no memory.
pub fn char_value(text: &[u8]) -> Option<Value>
    ensures { result ≡ when (nat_le (marked 0 text.now) 255) (literal.Char (marked 0 text.now)) }
{
    let n = number(16, unmarked(text), 255)?;
    Some(Value::Char(n as u8))
}

/// The constant that a string is: one of one character is that character.
pub fn string_value(alloc: Global, text: &[u8]) -> Result<Value, AllocError>
    ensures { IfOk result (λ v. v ≡ text_value text.now) }
{
    if text.len() == 1 {
        return Ok(Value::Char(text[0]));
    }
    let text = List::from_slice(alloc, text)?;
    Ok(Value::Str(text))
}
