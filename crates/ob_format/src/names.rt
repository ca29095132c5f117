//! Identifiers and names of objects as bytes.

ghost use Rattle.std.specs.Prelude.{◌≡◌, ◌≤◌, OnOk, length};
ghost use Rattle.std.specs.List.{list_all};
ghost use Rattle.std.specs.Char.{is_ascii_alphanumeric};
ghost use Rattle.std.specs.Cmp.Lexicographic.{slice_cmp};
ghost use Rattle.std.specs.Ordering.{nat_cmp};
ghost use Rattle.ob_format.specs.Format.{Adds, Gives, Finds, text16};
ghost use Rattle.ob_format.specs.Names.{is_letters, is_identifier, is_object, is_object_byte, name, object_name, qname};
ghost use Rattle.ob_format.specs.NameLaws.{name_exact, object_name_exact, qname_exact};

use crate::fault::Fault;
use crate::wire::{Ranked, Wire, bytes_of, put_bytes, u16_at};
use ob_tree::{CompactName, Name, ObjName, QName};
use std::alloc::{AllocError, Global};
use std::cmp::Ordering;

fn has_letters(bytes: &[u8]) -> bool
    ensures { result ≡ list_all is_ascii_alphanumeric bytes.now }
{
    let mut rest = bytes;
    while let [first, more @ ..] = rest {
        if !first.is_ascii_alphanumeric() {
            return false;
        }
        rest = more;
    }
    true
}

fn begins_as_word(bytes: &[u8]) -> bool
    ensures { result ≡ is_letters bytes.now }
{
    match bytes {
        [] => false,
        [first, rest @ ..] => first.is_ascii_alphabetic() && has_letters(rest),
    }
}

/// Whether the bytes are an identifier: a letter, then letters and digits, at most 64 in all.
pub fn is_name(bytes: &[u8]) -> bool
    ensures { result ≡ is_identifier bytes.now }
{
    begins_as_word(bytes) && bytes.len() <= 64
}

fn is_object_byte_of(byte: u8) -> bool
    ensures { result ≡ is_object_byte byte }
{
    byte.is_ascii_alphanumeric()
        || byte == b':'
        || byte == b'^'
        || byte == b'['
        || byte == b'.'
        || byte == b'('
        || byte == b'/'
}

fn has_object_bytes(bytes: &[u8]) -> bool
    ensures { result ≡ list_all is_object_byte bytes.now }
{
    let mut rest = bytes;
    while let [first, more @ ..] = rest {
        if !is_object_byte_of(*first) {
            return false;
        }
        rest = more;
    }
    true
}

/// Whether the bytes are an object's name: a letter, then letters, digits and the bytes `:`, `^`,
/// `[`, `.`, `(` and `/`.
pub fn is_object_name(bytes: &[u8]) -> bool
    ensures { result ≡ is_object bytes.now }
{
    match bytes {
        [] => false,
        [first, rest @ ..] => first.is_ascii_alphabetic() && has_object_bytes(rest),
    }
}

#[tactic(auto, unfolding(crate::specs::Format::text16, crate::specs::Format::word16, crate::specs::Format::text_at, crate::specs::Format::fixed_at))]
fn short_text_at(bytes: &[u8]) -> Option<(&[u8], &[u8])>
    ensures { Finds (λ x. (x.0.now, x.1.now)) result (text16.take bytes.now) }
{
    let (len, rest) = u16_at(bytes)?;
    bytes_of(len as usize, rest)
}

#[tactic(auto, unfolding(crate::specs::Format::text16))]
fn write_short_text(text: &[u8], out: &mut Vec<u8>) -> Result<(), AllocError>
    requires { text16.fits text.now }
    ensures { OnOk result (Adds out.old.items out.new.items (text16.spell text.now)) }
{
    out.extend_from_slice(&(text.len() as u16).to_be_bytes())?;
    out.extend_from_slice(text)?;
    Ok(())
}

impl Wire for Name {
    ghost form = { name };

    #[tactic(auto, unfolding(crate::specs::Names::name, crate::specs::Format::such_that_at))]
    fn read(_alloc: Global, bytes: &[u8]) -> Result<(Name, &[u8]), Fault> {
        match short_text_at(bytes) {
            Some((front, rest)) if is_name(front) => Ok((Name::new(front), rest)),
            _ => Err(Fault::Damaged),
        }
    }

    #[tactic(auto, unfolding(crate::specs::Names::name))]
    fn write(&self, out: &mut Vec<u8>) -> Result<(), AllocError> {
        write_short_text(self.as_bytes(), out)
    }

    ghost exact = { name_exact };
}

impl Wire for CompactName {
    ghost form = { name };

    #[tactic(auto, unfolding(crate::specs::Names::name, crate::specs::Format::such_that_at))]
    fn read(alloc: Global, bytes: &[u8]) -> Result<(CompactName, &[u8]), Fault> {
        match short_text_at(bytes) {
            Some((front, rest)) if is_name(front) => Ok((CompactName::new(alloc, front)?, rest)),
            _ => Err(Fault::Damaged),
        }
    }

    #[tactic(auto, unfolding(crate::specs::Names::name))]
    fn write(&self, out: &mut Vec<u8>) -> Result<(), AllocError> {
        write_short_text(self.as_bytes(), out)
    }

    ghost exact = { name_exact };
}

impl Ranked for Name {
    ghost rank = { slice_cmp nat_cmp };

    fn compare(&self, other: &Name) -> Ordering {
        self.as_bytes().cmp(other.as_bytes())
    }
}

impl Wire for ObjName {
    ghost form = { object_name };

    #[tactic(auto, unfolding(crate::specs::Names::object_name, crate::specs::Format::such_that_at))]
    fn read(alloc: Global, bytes: &[u8]) -> Result<(ObjName, &[u8]), Fault> {
        match short_text_at(bytes) {
            Some((front, rest)) if is_object_name(front) => Ok((ObjName::new(alloc, front)?, rest)),
            _ => Err(Fault::Damaged),
        }
    }

    #[tactic(auto, unfolding(crate::specs::Names::object_name))]
    fn write(&self, out: &mut Vec<u8>) -> Result<(), AllocError> {
        write_short_text(self.as_bytes(), out)
    }

    ghost exact = { object_name_exact };
}

impl Ranked for ObjName {
    ghost rank = { slice_cmp nat_cmp };

    fn compare(&self, other: &ObjName) -> Ordering {
        ObjName::compare(self, other)
    }
}

impl Wire for QName {
    ghost form = { qname };

    #[tactic(auto, unfolding(crate::specs::Names::qname, crate::specs::Format::made_at, crate::specs::Format::pair_at))]
    fn read(alloc: Global, bytes: &[u8]) -> Result<(QName, &[u8]), Fault> {
        match CompactName::read(alloc, bytes) {
            Ok((module, rest)) => {
                let (object, rest) = ObjName::read(alloc, rest)?;
                Ok((QName { module, object }, rest))
            }
            Err(fault) => Err(fault),
        }
    }

    #[tactic(auto, unfolding(crate::specs::Names::qname), using(crate::specs::Exact::then_adds))]
    fn write(&self, out: &mut Vec<u8>) -> Result<(), AllocError> {
        self.module.write(out)?;
        self.object.write(out)
    }

    ghost exact = { qname_exact };
}
