//! Relations of strings that are constants.

ghost use Rattle.std.specs.Prelude.{◌≡◌, ◌∷◌, [], Option, Some, None, ◌≤◌, length};
ghost use Rattle.std.specs.Option.{option_map};
ghost use Rattle.ob_types.specs.Numbers.{holds, text_equal, text_less};
ghost use Rattle.ob_types.specs.Assigning.{characters};
ghost use Rattle.ob_rules.specs.Constants as spec;

use crate::relations::holds;
use crate::values::truth;
use ob_types::{Comparison, Value};
use std::cmp::Ordering;

// The characters up to the first 0X.
fn up_to_end(text: &[u8]) -> &[u8]
    ensures { result.now ≡ spec.up_to_end text.now }
{
    let mut end = 0;
    'characters: while end < text.len() && text[end] != 0 {
        end += 1;
    }
    &text[..end]
}

#[tactic(auto, using(crate::proofs::TextOrder::equal_texts))]
fn is_equal<'a>(a: &'a [u8], b: &'a [u8]) -> bool
    ensures { result ≡ text_equal a.now b.now }
{
    a == b
}

#[tactic(auto, using(crate::proofs::TextOrder::less_texts, crate::proofs::TextOrder::equal_are, crate::proofs::TextOrder::greater_texts))]
fn is_less(a: &[u8], b: &[u8]) -> bool
    ensures { result ≡ text_less a.now b.now }
{
    match a.cmp(b) {
        Ordering::Less => true,
        Ordering::Equal => false,
        Ordering::Greater => false,
    }
}

fn compare_texts(comparison: Comparison, a: &[u8], b: &[u8]) -> bool
    ensures { result ≡ holds comparison (text_equal (spec.up_to_end a.now) (spec.up_to_end b.now)) (text_less (spec.up_to_end a.now) (spec.up_to_end b.now)) }
{
    let a = up_to_end(a);
    let b = up_to_end(b);
    holds(comparison, is_equal(a, b), is_less(a, b))
}

/// A relation of two constants as strings, a character as a string of one; none where one is
/// neither. Takes no memory.
pub fn fold_texts(comparison: Comparison, a: &Value, b: &Value) -> Option<Value>
    ensures { result ≡ spec.fold_texts comparison a.now b.now }
{
    match a {
        Value::Str(text) => with_first(comparison, text.as_slice(), b),
        Value::Char(c) => with_first(comparison, &[*c], b),
        _ => None,
    }
}

fn with_first(comparison: Comparison, a: &[u8], b: &Value) -> Option<Value>
    ensures { result ≡ spec.texts_related comparison (Some a.now) (characters b.now) }
{
    match b {
        Value::Str(text) => truth(compare_texts(comparison, a, text.as_slice())),
        Value::Char(c) => truth(compare_texts(comparison, a, &[*c])),
        _ => None,
    }
}
