//! Types as words of a text.

ghost use Rattle.std.specs.Prelude.{◌≡◌};
ghost use Rattle.ob_format.specs.Format.{Gives};
ghost use Rattle.ob_desc.specs.Forms.{lookup, last};
ghost use Rattle.ob_desc.specs.Grammar.{basics, type_at, type_name, base_at};

use crate::words::dotted_of;
use ob_format::{Fault, split_at_byte};
use ob_types::{Basic, TypeRef};
use std::alloc::Global;

fn basic_of(word: &[u8]) -> Option<Basic>
    ensures { result ≡ lookup basics word.now }
{
    if word == b"BOOLEAN".as_slice() {
        Some(Basic::Boolean)
    } else if word == b"CHAR".as_slice() {
        Some(Basic::Char)
    } else if word == b"SHORTINT".as_slice() {
        Some(Basic::ShortInt)
    } else if word == b"INTEGER".as_slice() {
        Some(Basic::Integer)
    } else if word == b"LONGINT".as_slice() {
        Some(Basic::LongInt)
    } else if word == b"SET".as_slice() {
        Some(Basic::Set)
    } else {
        None
    }
}

/// The type that a word names.
#[tactic(auto, unfolding(crate::specs::Grammar::type_at))]
pub fn type_of(alloc: Global, word: &[u8]) -> Result<TypeRef, Fault>
    ensures { Gives (λ x. x) result (type_at word.now) }
{
    let (_module, rest) = split_at_byte(b'.', word);
    if !rest.is_empty() {
        return Ok(TypeRef::Named(dotted_of(alloc, word)?));
    }
    match basic_of(word) {
        Some(basic) => Ok(TypeRef::Basic(basic)),
        None => Err(Fault::Damaged),
    }
}

/// The type that a word names, or that it says there is none.
#[tactic(auto, unfolding(crate::specs::Grammar::base_at))]
pub fn base_of(alloc: Global, word: &[u8]) -> Result<Option<TypeRef>, Fault>
    ensures { Gives (λ x. x) result (base_at word.now) }
{
    if word == b"NONE".as_slice() {
        return Ok(None);
    }
    Ok(Some(type_of(alloc, word)?))
}

/// The type that the last word names, behind a space.
#[tactic(auto, unfolding(crate::specs::Forms::last_at))]
pub fn last_type(alloc: Global, bytes: &[u8]) -> Result<TypeRef, Fault>
    ensures { Gives (λ x. x) result ((last 32 type_name).parse bytes.now) }
{
    match bytes {
        [b' ', rest @ ..] => type_of(alloc, rest),
        _ => Err(Fault::Damaged),
    }
}
