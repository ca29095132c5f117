//! Numbers, names and marks, as words of a text.

ghost use Rattle.std.specs.Prelude.{◌≡◌};
ghost use Rattle.ob_format.specs.Format.{Gives};
ghost use Rattle.ob_format.specs.Words.{word_at};
ghost use Rattle.ob_desc.specs.Forms.{lookup, last};
ghost use Rattle.ob_desc.specs.Grammar.{small, count, dotted_at, dotted_identifier, marks, shown_mark};

use ob_format::{Fault, is_name, is_object_name, number_of, split_at_byte, word};
use ob_tree::{CompactName, ObjName, QName};
use ob_types::Mark;
use std::alloc::Global;

/// The word at the front, up to the next space, and what follows that space.
pub fn next_word(bytes: &[u8]) -> Result<(&[u8], &[u8]), Fault>
    ensures { Gives (λ x. (x.0.now, x.1.now)) result (word_at 32 bytes.now) }
{
    match word(b' ', bytes) {
        Some(found) => Ok(found),
        None => Err(Fault::Damaged),
    }
}

/// The number below 2,147,483,648 that a word is.
#[tactic(auto, unfolding(crate::specs::Forms::kept_at))]
pub fn small_of(word: &[u8]) -> Option<u32>
    ensures { result ≡ small.parse word.now }
{
    let number = number_of(word)?;
    if number < 2147483648 {
        Some(number)
    } else {
        None
    }
}

/// The number below 2,147,483,648 that the last word is, behind a space.
#[tactic(auto, unfolding(crate::specs::Forms::last_at))]
pub fn last_small(bytes: &[u8]) -> Option<u32>
    ensures { result ≡ (last 32 small).parse bytes.now }
{
    match bytes {
        [b' ', rest @ ..] => small_of(rest),
        _ => None,
    }
}

/// The number below 2,147,483,648 that a word is, and not 0.
#[tactic(auto, unfolding(crate::specs::Forms::kept_at))]
pub fn count_of(word: &[u8]) -> Option<u32>
    ensures { result ≡ count.parse word.now }
{
    let number = small_of(word)?;
    if number > 0 { Some(number) } else { None }
}

/// The name of an object that a word is: the module, a dot, and the name in it.
#[tactic(auto, unfolding(crate::specs::Grammar::dotted_at, crate::specs::Grammar::object_at))]
pub fn dotted_of(alloc: Global, word: &[u8]) -> Result<QName, Fault>
    ensures { Gives (λ x. x) result (dotted_at word.now) }
{
    let (module, rest) = split_at_byte(b'.', word);
    if !is_name(module) {
        return Err(Fault::Damaged);
    }
    match rest {
        [] => Err(Fault::Damaged),
        [_, object @ ..] => {
            if !is_object_name(object) {
                return Err(Fault::Damaged);
            }
            let object = ObjName::new(alloc, object)?;
            Ok(QName {
                module: CompactName::new(alloc, module)?,
                object,
            })
        }
    }
}

/// The name of an object that a word is, whose name in its module is an identifier.
#[tactic(auto, unfolding(crate::specs::Forms::kept_at))]
pub fn dotted_identifier_of(alloc: Global, word: &[u8]) -> Result<QName, Fault>
    ensures { Gives (λ x. x) result (dotted_identifier.parse word.now) }
{
    let name = dotted_of(alloc, word)?;
    if !is_name(name.object.as_bytes()) {
        return Err(Fault::Damaged);
    }
    Ok(name)
}

/// The export mark that a word is.
pub fn mark_of(word: &[u8]) -> Option<Mark>
    ensures { result ≡ lookup marks word.now }
{
    if word == b"*".as_slice() {
        Some(Mark::Full)
    } else if word == b"-".as_slice() {
        Some(Mark::ReadOnly)
    } else if word == b".".as_slice() {
        Some(Mark::Hidden)
    } else {
        None
    }
}

/// The export mark that a word is, of what other modules see.
#[tactic(auto, unfolding(crate::specs::Forms::kept_at))]
pub fn shown_mark_of(word: &[u8]) -> Option<Mark>
    ensures { result ≡ shown_mark.parse word.now }
{
    match mark_of(word) {
        Some(Mark::Full) => Some(Mark::Full),
        Some(Mark::ReadOnly) => Some(Mark::ReadOnly),
        Some(Mark::Hidden) => None,
        None => None,
    }
}
