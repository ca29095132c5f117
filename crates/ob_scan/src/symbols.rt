//! One symbol: how many bytes it has, and which it is.

ghost use Rattle.std.specs.Prelude.{◌≡◌, ◌<◌, ◌≤◌, true, false, ◌+◌, length, slice_index, drop};
ghost use Rattle.std.specs.List.{prefix_len};
ghost use Rattle.ob_scan.specs.Vocabulary as spec;
ghost use Rattle.ob_scan.specs.Scanning as scanning;
ghost use Rattle.ob_scan.specs.Kinds as kinds;
ghost use Rattle.ob_scan.specs.Kinds.{symbol_first, test_of};

use crate::bytes::{
    is_digit, is_hex_digit, is_letter_or_digit, is_plain, mark_of_one, mark_of_two,
};
use crate::fault::ScanFault;
use crate::words::word_symbol;
use ob_tree::{Pos, Symbol};

/// A kind of bytes that stand in a row.
#[derive(Clone, Copy)]
pub enum Kind {
    LetterOrDigit,
    Digit,
    HexDigit,
    /// What may stand in a string that begins with this mark.
    Plain(u8),
}

fn is_of(kind: Kind, b: u8) -> bool
    ensures { result ≡ test_of kind b }
{
    match kind {
        Kind::LetterOrDigit => is_letter_or_digit(b),
        Kind::Digit => is_digit(b),
        Kind::HexDigit => is_hex_digit(b),
        Kind::Plain(quote) => is_plain(quote, b),
    }
}

// How many bytes at the front are of this kind.
fn run(kind: Kind, text: &[u8]) -> usize
    ensures value { result ≡ prefix_len (test_of kind) text.now }
    ensures within { result ≤ length text.now }
{
    let mut n = 0;
    'run: while n < text.len() {
        if !is_of(kind, text[n]) {
            return n;
        }
        n += 1;
    }
    n
}

// Where one stands behind the first byte and those of this kind behind it.
fn behind_first(kind: Kind, text: &[u8]) -> usize
    requires { 0 < length text.now }
    ensures value { result ≡ 1 + prefix_len (test_of kind) (drop 1 text.now) }
    ensures within { result ≤ length text.now }
{
    let rest = &text[1..];
    1 + run(kind, rest)
}

// Whether a dot stands there, and no second one behind it.
fn is_dot_alone(text: &[u8]) -> bool
    ensures { result ≡ scanning.is_dot_alone text.now }
{
    match text {
        [] => false,
        [a] => *a == b'.',
        [a, b, ..] => *a == b'.' && !(*b == b'.'),
    }
}

/// What begins with a letter.
#[inline(always)]
pub fn word_at(text: &[u8], pos: Pos) -> Result<(usize, Symbol), ScanFault>
    requires some { 0 < length text.now }
    requires letter { spec.is_letter (slice_index text.now 0) ≡ true }
    ensures { symbol_first result ≡ scanning.symbol_at pos text.now }
{
    let n = run(Kind::LetterOrDigit, text);
    if 64 < n {
        Err(ScanFault::Limit { pos })
    } else {
        Ok((n, word_symbol(&text[..n])))
    }
}

/// What begins with a digit.
#[inline(never)]
pub fn number_at(text: &[u8], pos: Pos) -> Result<(usize, Symbol), ScanFault>
    requires some { 0 < length text.now }
    requires digit { spec.is_digit (slice_index text.now 0) ≡ true }
    ensures { symbol_first result ≡ scanning.symbol_at pos text.now }
{
    let digits = run(Kind::Digit, text);
    if is_dot_alone(&text[digits..]) {
        return Err(ScanFault::Real { pos });
    }
    whole_at(text, pos, digits)
}

// An integer or a character; so many decimal digits are at its front.
fn whole_at(text: &[u8], pos: Pos, digits: usize) -> Result<(usize, Symbol), ScanFault>
    requires some { 0 < length text.now }
    requires digit { spec.is_digit (slice_index text.now 0) ≡ true }
    requires count { digits ≡ prefix_len spec.is_digit text.now }
    requires dot { scanning.is_dot_alone (drop digits text.now) ≡ false }
    ensures { symbol_first result ≡ scanning.symbol_at pos text.now }
{
    let n = behind_first(Kind::HexDigit, text);
    if n == text.len() {
        Ok((digits, Symbol::Int))
    } else if text[n] == b'H' {
        Ok((n + 1, Symbol::Int))
    } else if text[n] == b'X' {
        Ok((n + 1, Symbol::Char))
    } else {
        Ok((digits, Symbol::Int))
    }
}

/// What begins with the mark of a string.
#[inline(never)]
pub fn string_at(text: &[u8], pos: Pos) -> Result<(usize, Symbol), ScanFault>
    requires some { 0 < length text.now }
    requires quote { spec.is_quote (slice_index text.now 0) ≡ true }
    ensures { symbol_first result ≡ scanning.symbol_at pos text.now }
{
    let quote = text[0];
    let n = behind_first(Kind::Plain(quote), text);
    if n == text.len() {
        Err(ScanFault::Symbol { pos })
    } else if text[n] == quote {
        Ok((n + 1, Symbol::Str))
    } else {
        Err(ScanFault::Symbol { pos })
    }
}

// The mark that the first two bytes are.
#[inline(always)]
fn two_at(text: &[u8]) -> Option<Symbol>
    ensures { result ≡ kinds.two_of text.now }
{
    match text {
        [a, b, ..] => mark_of_two(*a, *b),
        _ => None,
    }
}

/// What begins with anything else.
#[inline(always)]
pub fn mark_at(text: &[u8], pos: Pos) -> Result<(usize, Symbol), ScanFault>
    requires some { 0 < length text.now }
    requires letter { spec.is_letter (slice_index text.now 0) ≡ false }
    requires digit { spec.is_digit (slice_index text.now 0) ≡ false }
    requires quote { spec.is_quote (slice_index text.now 0) ≡ false }
    ensures { symbol_first result ≡ scanning.symbol_at pos text.now }
{
    match two_at(text) {
        Some(symbol) => Ok((2, symbol)),
        None => match mark_of_one(text[0]) {
            Some(symbol) => Ok((1, symbol)),
            None => Err(ScanFault::Symbol { pos }),
        },
    }
}
