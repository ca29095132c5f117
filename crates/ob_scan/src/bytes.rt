//! Kinds of bytes.

ghost use Rattle.std.specs.Prelude.{◌≡◌};
ghost use Rattle.ob_scan.specs.Vocabulary as spec;

use ob_tree::Symbol;

pub fn is_digit(b: u8) -> bool
    ensures { result ≡ spec.is_digit b }
{
    b'0' <= b && b <= b'9'
}

pub fn is_letter(b: u8) -> bool
    ensures { result ≡ spec.is_letter b }
{
    b'A' <= b && b <= b'Z' || b'a' <= b && b <= b'z'
}

pub fn is_letter_or_digit(b: u8) -> bool
    ensures { result ≡ spec.is_letter_or_digit b }
{
    is_letter(b) || is_digit(b)
}

pub fn is_hex_digit(b: u8) -> bool
    ensures { result ≡ spec.is_hex_digit b }
{
    is_digit(b) || b'A' <= b && b <= b'F'
}

pub fn is_blank(b: u8) -> bool
    ensures { result ≡ spec.is_blank b }
{
    b == 9 || b == 10 || b == 13 || b == 32
}

pub fn is_quote(b: u8) -> bool
    ensures { result ≡ spec.is_quote b }
{
    b == b'"' || b == b'\''
}

pub fn is_plain(quote: u8, b: u8) -> bool
    ensures { result ≡ spec.is_plain quote b }
{
    b <= 127 && b != 10 && b != quote
}

#[inline(always)]
pub fn mark_of_one(b: u8) -> Option<Symbol>
    ensures { result ≡ spec.mark_of_one b }
{
    if b == b'+' {
        Some(Symbol::Plus)
    } else if b == b'-' {
        Some(Symbol::Minus)
    } else if b == b'*' {
        Some(Symbol::Star)
    } else if b == b'/' {
        Some(Symbol::Slash)
    } else if b == b'~' {
        Some(Symbol::Tilde)
    } else if b == b'&' {
        Some(Symbol::Ampersand)
    } else if b == b'.' {
        Some(Symbol::Dot)
    } else if b == b',' {
        Some(Symbol::Comma)
    } else if b == b';' {
        Some(Symbol::Semicolon)
    } else if b == b'|' {
        Some(Symbol::Bar)
    } else if b == b'(' {
        Some(Symbol::LeftRound)
    } else if b == b'[' {
        Some(Symbol::LeftSquare)
    } else if b == b'{' {
        Some(Symbol::LeftCurly)
    } else if b == b'^' {
        Some(Symbol::Caret)
    } else if b == b'=' {
        Some(Symbol::Equal)
    } else if b == b'#' {
        Some(Symbol::Hash)
    } else if b == b'<' {
        Some(Symbol::Less)
    } else if b == b'>' {
        Some(Symbol::Greater)
    } else if b == b':' {
        Some(Symbol::Colon)
    } else if b == b')' {
        Some(Symbol::RightRound)
    } else if b == b']' {
        Some(Symbol::RightSquare)
    } else if b == b'}' {
        Some(Symbol::RightCurly)
    } else {
        None
    }
}

#[inline(always)]
pub fn mark_of_two(a: u8, b: u8) -> Option<Symbol>
    ensures { result ≡ spec.mark_of_two a b }
{
    if b == b'=' {
        if a == b':' {
            Some(Symbol::Becomes)
        } else if a == b'<' {
            Some(Symbol::LessEqual)
        } else if a == b'>' {
            Some(Symbol::GreaterEqual)
        } else {
            None
        }
    } else if b == b'.' && a == b'.' {
        Some(Symbol::DotDot)
    } else {
        None
    }
}
