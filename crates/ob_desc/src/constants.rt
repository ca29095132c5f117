//! Values of constants, from their texts.

ghost use Rattle.std.specs.Prelude.{◌≡◌, ◌<◌, IfSome};
ghost use Rattle.ob_format.specs.Format.{Gives};
ghost use Rattle.ob_desc.specs.Forms.{lookup, last};
ghost use Rattle.ob_desc.specs.Grammar.{truths, character, const_kinds, int_at, const_by, hex_value, hex_at, quoted_at, string, constant};

use crate::kind::ConstKind;
use crate::writing::{const_name_of, int_kind_of};
use ob_format::{Fault, number_of, signed_of, split_at_byte};
use ob_tree::Text;
use ob_types::Value;
use std::alloc::Global;

fn const_kind_of(word: &[u8]) -> Option<ConstKind>
    ensures { result ≡ lookup const_kinds word.now }
{
    if word == b"BOOLEAN".as_slice() {
        Some(ConstKind::Boolean)
    } else if word == b"CHAR".as_slice() {
        Some(ConstKind::Char)
    } else if word == b"SHORTINT".as_slice() {
        Some(ConstKind::ShortInt)
    } else if word == b"INTEGER".as_slice() {
        Some(ConstKind::Integer)
    } else if word == b"LONGINT".as_slice() {
        Some(ConstKind::LongInt)
    } else if word == b"SET".as_slice() {
        Some(ConstKind::Set)
    } else if word == b"STRING".as_slice() {
        Some(ConstKind::String)
    } else {
        None
    }
}

fn truth_of(word: &[u8]) -> Option<bool>
    ensures { result ≡ lookup truths word.now }
{
    if word == b"0".as_slice() {
        Some(false)
    } else if word == b"1".as_slice() {
        Some(true)
    } else {
        None
    }
}

#[tactic(auto, unfolding(crate::specs::Forms::kept_at))]
fn character_of(word: &[u8]) -> Option<u8>
    ensures { result ≡ character.parse word.now }
{
    let number = number_of(word)?;
    if number < 256 {
        Some(number as u8)
    } else {
        None
    }
}

fn hex_value_of(digit: u8) -> Option<u8>
    ensures value { result ≡ hex_value digit }
    ensures small { IfSome result (λ n. n < 16) }
{
    match digit {
        b'0'..=b'9' => Some(digit - 48),
        b'A'..=b'F' => Some(digit - 55),
        _ => None,
    }
}

#[tactic(auto, unfolding(crate::specs::Grammar::hex_at))]
fn hex_of(alloc: Global, digits: &[u8]) -> Result<Text, Fault>
    ensures { Gives (λ x. x) result (hex_at digits.now) }
{
    let mut text = Text::new(alloc);
    let mut rest = digits;
    while let [high, low, more @ ..] = rest {
        let Some(high) = hex_value_of(*high) else {
            return Err(Fault::Damaged);
        };
        let Some(low) = hex_value_of(*low) else {
            return Err(Fault::Damaged);
        };
        text.push(high * 16 + low)?;
        rest = more;
    }
    if rest.is_empty() {
        Ok(text)
    } else {
        Err(Fault::Damaged)
    }
}

#[tactic(auto, unfolding(crate::specs::Grammar::quoted_at))]
fn quoted_of(alloc: Global, word: &[u8]) -> Result<Text, Fault>
    ensures { Gives (λ x. x) result (quoted_at word.now) }
{
    match word {
        [b'"', rest @ ..] => {
            let (digits, end) = split_at_byte(b'"', rest);
            if end != b"\"".as_slice() {
                return Err(Fault::Damaged);
            }
            hex_of(alloc, digits)
        }
        _ => Err(Fault::Damaged),
    }
}

#[tactic(auto, unfolding(crate::specs::Forms::kept_at))]
fn string_of(alloc: Global, word: &[u8]) -> Result<Text, Fault>
    ensures { Gives (λ x. x) result (string.parse word.now) }
{
    let text = quoted_of(alloc, word)?;
    if text.len() == 1 {
        return Err(Fault::Damaged);
    }
    Ok(text)
}

#[tactic(auto, unfolding(crate::specs::Grammar::int_at, crate::specs::Forms::last_at))]
fn int_of(kind: ConstKind, bytes: &[u8]) -> Option<Value>
    ensures { result ≡ int_at kind bytes.now }
{
    match bytes {
        [b' ', rest @ ..] => {
            let number = signed_of(rest)?;
            if const_name_of(int_kind_of(number)) == const_name_of(kind) {
                Some(Value::Int(number))
            } else {
                None
            }
        }
        _ => None,
    }
}

#[tactic(auto, unfolding(crate::specs::Grammar::const_by, crate::specs::Forms::last_at))]
fn value_by(alloc: Global, kind: ConstKind, bytes: &[u8]) -> Result<Value, Fault>
    ensures { Gives (λ x. x) result (const_by kind bytes.now) }
{
    match kind {
        ConstKind::Boolean => match bytes {
            [b' ', rest @ ..] => match truth_of(rest) {
                Some(holds) => Ok(Value::Bool(holds)),
                None => Err(Fault::Damaged),
            },
            _ => Err(Fault::Damaged),
        },
        ConstKind::Char => match bytes {
            [b' ', rest @ ..] => match character_of(rest) {
                Some(code) => Ok(Value::Char(code)),
                None => Err(Fault::Damaged),
            },
            _ => Err(Fault::Damaged),
        },
        ConstKind::ShortInt | ConstKind::Integer | ConstKind::LongInt => {
            match int_of(kind, bytes) {
                Some(value) => Ok(value),
                None => Err(Fault::Damaged),
            }
        }
        ConstKind::Set => match bytes {
            [b' ', rest @ ..] => match signed_of(rest) {
                Some(word) => Ok(Value::Set(word.cast_unsigned())),
                None => Err(Fault::Damaged),
            },
            _ => Err(Fault::Damaged),
        },
        ConstKind::String => match bytes {
            [b' ', rest @ ..] => Ok(Value::Str(string_of(alloc, rest)?)),
            _ => Err(Fault::Damaged),
        },
    }
}

#[tactic(auto, unfolding(crate::specs::Forms::chosen_at))]
fn constant_of(alloc: Global, word: &[u8]) -> Result<Value, Fault>
    ensures { Gives (λ x. x) result (constant.parse word.now) }
{
    let (keyword, rest) = split_at_byte(b' ', word);
    match const_kind_of(keyword) {
        None => Err(Fault::Damaged),
        Some(kind) => value_by(alloc, kind, rest),
    }
}

/// The value that the rest of a text is, behind a space.
#[tactic(auto, unfolding(crate::specs::Forms::last_at))]
pub fn last_constant(alloc: Global, bytes: &[u8]) -> Result<Value, Fault>
    ensures { Gives (λ x. x) result ((last 32 constant).parse bytes.now) }
{
    match bytes {
        [b' ', rest @ ..] => constant_of(alloc, rest),
        _ => Err(Fault::Damaged),
    }
}
