//! Words and numbers in texts.

ghost use Rattle.std.specs.Prelude.{◌≡◌, ◌++◌, ◌∷◌, OnOk, decimal};
ghost use Rattle.std.specs.Fmt.{signed_decimal};
ghost use Rattle.ob_format.specs.Format.{Adds, Finds};
ghost use Rattle.ob_format.specs.Words.{front, back, numeral_at, digits_at, signed_at, word_at};

use itoa::Buffer;
use std::alloc::AllocError;

/// The bytes before the first `c`, and the rest from it on.
pub fn split_at_byte(c: u8, bytes: &[u8]) -> (&[u8], &[u8])
    ensures before { result.0.now ≡ front c bytes.now }
    ensures after { result.1.now ≡ back c bytes.now }
{
    let mut count = 0;
    while count < bytes.len() && bytes[count] != c {
        count += 1;
    }
    bytes.split_at(count)
}

/// The word after a byte `c`, up to the next one, and what follows it; none where the bytes do
/// not begin with `c`.
#[tactic(auto, unfolding(crate::specs::Words::word_at))]
pub fn word(c: u8, bytes: &[u8]) -> Option<(&[u8], &[u8])>
    ensures { Finds (λ x. (x.0.now, x.1.now)) result (word_at c bytes.now) }
{
    match bytes {
        [first, rest @ ..] if *first == c => Some(split_at_byte(c, rest)),
        _ => None,
    }
}

#[tactic(auto, unfolding(crate::specs::Words::digits_at))]
fn digits(text: &[u8]) -> Option<u32>
    ensures { result ≡ digits_at 0 text.now }
{
    let mut number: u32 = 0;
    let mut rest = text;
    while let [digit, more @ ..] = rest {
        if !digit.is_ascii_digit() {
            return None;
        }
        let next = number as u64 * 10 + (*digit as u64 - 48);
        if next > u32::MAX as u64 {
            return None;
        }
        number = next as u32;
        rest = more;
    }
    Some(number)
}

/// The number below 2 to the 32 that a word spells in decimal without leading zeros; none where
/// it spells none.
#[tactic(auto, unfolding(crate::specs::Words::numeral_at))]
pub fn number_of(word: &[u8]) -> Option<u32>
    ensures { result ≡ numeral_at word.now }
{
    match word {
        [] => None,
        [b'0', _, ..] => None,
        _ => digits(word),
    }
}

/// The number that a word spells in decimal, with `-` before a negative one; none where it spells
/// none of 32 bits, or has a leading zero or is `-0`.
#[tactic(auto, unfolding(crate::specs::Words::signed_at))]
pub fn signed_of(word: &[u8]) -> Option<i32>
    ensures { result ≡ signed_at word.now }
{
    match word {
        [] => None,
        [b'-', rest @ ..] => {
            let size = number_of(rest)?;
            if size == 0 || size > 2147483648 {
                return None;
            }
            Some((-(size as i64)) as i32)
        }
        _ => {
            let size = number_of(word)?;
            if size >= 2147483648 {
                return None;
            }
            Some(size as i32)
        }
    }
}

/// Writes a space and a word.
pub fn put_word(out: &mut Vec<u8>, word: &[u8]) -> Result<(), AllocError>
    ensures { OnOk result (Adds out.old.items out.new.items (32 ∷ word.now)) }
{
    out.push(b' ')?;
    out.extend_from_slice(word)?;
    Ok(())
}

/// Writes a space and a number in decimal.
pub fn put_number(out: &mut Vec<u8>, number: u32) -> Result<(), AllocError>
    ensures { OnOk result (Adds out.old.items out.new.items (32 ∷ decimal number)) }
{
    let mut buffer = Buffer::new();
    put_word(out, buffer.format(number).as_bytes())
}

/// Writes a space and a number in decimal, with `-` before a negative one.
pub fn put_signed(out: &mut Vec<u8>, value: i32) -> Result<(), AllocError>
    ensures { OnOk result (Adds out.old.items out.new.items (32 ∷ signed_decimal value)) }
{
    let mut buffer = Buffer::new();
    put_word(out, buffer.format(value).as_bytes())
}
