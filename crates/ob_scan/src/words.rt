//! Reserved words.

ghost use Rattle.std.specs.Prelude.{◌≡◌, ◌∷◌};
ghost use Rattle.ob_scan.specs.Vocabulary as spec;

use ob_tree::Symbol;

// Whether the two are the same, byte by byte.
#[inline(always)]
fn is_text(text: &[u8], word: &[u8]) -> bool
    ensures { result ≡ spec.is_text text.now word.now }
{
    if text.len() != word.len() {
        return false;
    }
    let mut n = 0;
    'same: while n < text.len() {
        if text[n] != word[n] {
            return false;
        }
        n += 1;
    }
    true
}

// A word that begins with `A`, by what is behind it.
#[inline(always)]
fn behind_a(rest: &[u8]) -> Symbol
    ensures { result ≡ spec.word_symbol (65 ∷ rest.now) }
{
    if is_text(rest, b"RRAY".as_slice()) {
        Symbol::KwArray
    } else {
        Symbol::Ident
    }
}

// A word that begins with `B`, by what is behind it.
#[inline(always)]
fn behind_b(rest: &[u8]) -> Symbol
    ensures { result ≡ spec.word_symbol (66 ∷ rest.now) }
{
    if is_text(rest, b"EGIN".as_slice()) {
        Symbol::KwBegin
    } else if is_text(rest, b"Y".as_slice()) {
        Symbol::KwBy
    } else {
        Symbol::Ident
    }
}

// A word that begins with `C`, by what is behind it.
#[inline(always)]
fn behind_c(rest: &[u8]) -> Symbol
    ensures { result ≡ spec.word_symbol (67 ∷ rest.now) }
{
    if is_text(rest, b"ASE".as_slice()) {
        Symbol::KwCase
    } else if is_text(rest, b"ONST".as_slice()) {
        Symbol::KwConst
    } else {
        Symbol::Ident
    }
}

// A word that begins with `D`, by what is behind it.
#[inline(always)]
fn behind_d(rest: &[u8]) -> Symbol
    ensures { result ≡ spec.word_symbol (68 ∷ rest.now) }
{
    if is_text(rest, b"IV".as_slice()) {
        Symbol::KwDiv
    } else if is_text(rest, b"O".as_slice()) {
        Symbol::KwDo
    } else {
        Symbol::Ident
    }
}

// A word that begins with `E`, by what is behind it.
#[inline(always)]
fn behind_e(rest: &[u8]) -> Symbol
    ensures { result ≡ spec.word_symbol (69 ∷ rest.now) }
{
    if is_text(rest, b"LSE".as_slice()) {
        Symbol::KwElse
    } else if is_text(rest, b"LSIF".as_slice()) {
        Symbol::KwElsif
    } else if is_text(rest, b"ND".as_slice()) {
        Symbol::KwEnd
    } else if is_text(rest, b"XIT".as_slice()) {
        Symbol::KwExit
    } else {
        Symbol::Ident
    }
}

// A word that begins with `F`, by what is behind it.
#[inline(always)]
fn behind_f(rest: &[u8]) -> Symbol
    ensures { result ≡ spec.word_symbol (70 ∷ rest.now) }
{
    if is_text(rest, b"OR".as_slice()) {
        Symbol::KwFor
    } else {
        Symbol::Ident
    }
}

// A word that begins with `I`, by what is behind it.
#[inline(always)]
fn behind_i(rest: &[u8]) -> Symbol
    ensures { result ≡ spec.word_symbol (73 ∷ rest.now) }
{
    if is_text(rest, b"F".as_slice()) {
        Symbol::KwIf
    } else if is_text(rest, b"MPORT".as_slice()) {
        Symbol::KwImport
    } else if is_text(rest, b"N".as_slice()) {
        Symbol::KwIn
    } else if is_text(rest, b"S".as_slice()) {
        Symbol::KwIs
    } else {
        Symbol::Ident
    }
}

// A word that begins with `L`, by what is behind it.
#[inline(always)]
fn behind_l(rest: &[u8]) -> Symbol
    ensures { result ≡ spec.word_symbol (76 ∷ rest.now) }
{
    if is_text(rest, b"OOP".as_slice()) {
        Symbol::KwLoop
    } else {
        Symbol::Ident
    }
}

// A word that begins with `M`, by what is behind it.
#[inline(always)]
fn behind_m(rest: &[u8]) -> Symbol
    ensures { result ≡ spec.word_symbol (77 ∷ rest.now) }
{
    if is_text(rest, b"OD".as_slice()) {
        Symbol::KwMod
    } else if is_text(rest, b"ODULE".as_slice()) {
        Symbol::KwModule
    } else {
        Symbol::Ident
    }
}

// A word that begins with `N`, by what is behind it.
#[inline(always)]
fn behind_n(rest: &[u8]) -> Symbol
    ensures { result ≡ spec.word_symbol (78 ∷ rest.now) }
{
    if is_text(rest, b"IL".as_slice()) {
        Symbol::KwNil
    } else {
        Symbol::Ident
    }
}

// A word that begins with `O`, by what is behind it.
#[inline(always)]
fn behind_o(rest: &[u8]) -> Symbol
    ensures { result ≡ spec.word_symbol (79 ∷ rest.now) }
{
    if is_text(rest, b"F".as_slice()) {
        Symbol::KwOf
    } else if is_text(rest, b"R".as_slice()) {
        Symbol::KwOr
    } else {
        Symbol::Ident
    }
}

// A word that begins with `P`, by what is behind it.
#[inline(always)]
fn behind_p(rest: &[u8]) -> Symbol
    ensures { result ≡ spec.word_symbol (80 ∷ rest.now) }
{
    if is_text(rest, b"OINTER".as_slice()) {
        Symbol::KwPointer
    } else if is_text(rest, b"ROCEDURE".as_slice()) {
        Symbol::KwProcedure
    } else {
        Symbol::Ident
    }
}

// A word that begins with `R`, by what is behind it.
#[inline(always)]
fn behind_r(rest: &[u8]) -> Symbol
    ensures { result ≡ spec.word_symbol (82 ∷ rest.now) }
{
    if is_text(rest, b"ECORD".as_slice()) {
        Symbol::KwRecord
    } else if is_text(rest, b"EPEAT".as_slice()) {
        Symbol::KwRepeat
    } else if is_text(rest, b"ETURN".as_slice()) {
        Symbol::KwReturn
    } else {
        Symbol::Ident
    }
}

// A word that begins with `T`, by what is behind it.
#[inline(always)]
fn behind_t(rest: &[u8]) -> Symbol
    ensures { result ≡ spec.word_symbol (84 ∷ rest.now) }
{
    if is_text(rest, b"HEN".as_slice()) {
        Symbol::KwThen
    } else if is_text(rest, b"O".as_slice()) {
        Symbol::KwTo
    } else if is_text(rest, b"YPE".as_slice()) {
        Symbol::KwType
    } else {
        Symbol::Ident
    }
}

// A word that begins with `U`, by what is behind it.
#[inline(always)]
fn behind_u(rest: &[u8]) -> Symbol
    ensures { result ≡ spec.word_symbol (85 ∷ rest.now) }
{
    if is_text(rest, b"NTIL".as_slice()) {
        Symbol::KwUntil
    } else {
        Symbol::Ident
    }
}

// A word that begins with `V`, by what is behind it.
#[inline(always)]
fn behind_v(rest: &[u8]) -> Symbol
    ensures { result ≡ spec.word_symbol (86 ∷ rest.now) }
{
    if is_text(rest, b"AR".as_slice()) {
        Symbol::KwVar
    } else {
        Symbol::Ident
    }
}

// A word that begins with `W`, by what is behind it.
#[inline(always)]
fn behind_w(rest: &[u8]) -> Symbol
    ensures { result ≡ spec.word_symbol (87 ∷ rest.now) }
{
    if is_text(rest, b"HILE".as_slice()) {
        Symbol::KwWhile
    } else if is_text(rest, b"ITH".as_slice()) {
        Symbol::KwWith
    } else {
        Symbol::Ident
    }
}

// A word by its first letter and what is behind it.
#[inline(always)]
fn by_first(first: u8, rest: &[u8]) -> Symbol
    ensures { result ≡ spec.word_symbol (first ∷ rest.now) }
{
    match first {
        b'A' => behind_a(rest),
        b'B' => behind_b(rest),
        b'C' => behind_c(rest),
        b'D' => behind_d(rest),
        b'E' => behind_e(rest),
        b'F' => behind_f(rest),
        b'I' => behind_i(rest),
        b'L' => behind_l(rest),
        b'M' => behind_m(rest),
        b'N' => behind_n(rest),
        b'O' => behind_o(rest),
        b'P' => behind_p(rest),
        b'R' => behind_r(rest),
        b'T' => behind_t(rest),
        b'U' => behind_u(rest),
        b'V' => behind_v(rest),
        b'W' => behind_w(rest),
        _ => Symbol::Ident,
    }
}

/// The reserved word that this is, or an identifier. The first letter leaves at most four words.
pub fn word_symbol(text: &[u8]) -> Symbol
    ensures { result ≡ spec.word_symbol text.now }
{
    match text {
        [] => Symbol::Ident,
        [first, rest @ ..] => by_first(*first, rest),
    }
}
