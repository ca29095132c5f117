//! Shape texts.

ghost use Rattle.std.specs.Prelude.{◌≡◌};
ghost use Rattle.ob_format.specs.Format.{Gives};
ghost use Rattle.ob_desc.specs.Forms.{lookup};
ghost use Rattle.ob_desc.specs.Grammar.{kinds, shape_by, shape_at, marked_text};

use crate::constants::last_constant;
use crate::kind::Kind;
use crate::members::members_of;
use crate::signatures::last_signature;
use crate::types::{base_of, last_type};
use crate::words::{count_of, dotted_identifier_of, dotted_of, mark_of, next_word};
use ob_format::{Fault, split_at_byte};
use ob_tree::QName;
use ob_types::{Desc, Mark, RecordDesc, TypeRef};
use std::alloc::Global;

#[tactic(auto, unfolding(crate::specs::Grammar::shape_by, ob_format::specs::Words::then_at, ob_format::specs::Words::after_at))]
fn const_of(alloc: Global, bytes: &[u8]) -> Result<(QName, Desc), Fault>
    ensures { Gives (λ x. x) result (shape_by Kind.Const bytes.now) }
{
    let (name, rest) = next_word(bytes)?;
    let name = dotted_of(alloc, name)?;
    let value = last_constant(alloc, rest)?;
    Ok((name, Desc::Const(value)))
}

#[tactic(auto, unfolding(crate::specs::Grammar::shape_by, ob_format::specs::Words::then_at, ob_format::specs::Words::after_at))]
fn proc_of(alloc: Global, bytes: &[u8]) -> Result<(QName, Desc), Fault>
    ensures { Gives (λ x. x) result (shape_by Kind.Proc bytes.now) }
{
    let (name, rest) = next_word(bytes)?;
    let name = dotted_identifier_of(alloc, name)?;
    let signature = last_signature(alloc, rest)?;
    Ok((name, Desc::Proc(signature)))
}

#[tactic(auto, unfolding(crate::specs::Grammar::shape_by, ob_format::specs::Words::then_at, ob_format::specs::Format::pair_at, ob_format::specs::Words::after_at))]
fn var_of(alloc: Global, bytes: &[u8]) -> Result<(QName, Desc), Fault>
    ensures { Gives (λ x. x) result (shape_by Kind.Var bytes.now) }
{
    let (name, rest) = next_word(bytes)?;
    let name = dotted_identifier_of(alloc, name)?;
    let (mark, rest) = next_word(rest)?;
    let Some(mark) = mark_of(mark) else {
        return Err(Fault::Damaged);
    };
    let of = last_type(alloc, rest)?;
    Ok((name, Desc::Var(mark, of)))
}

#[tactic(auto, unfolding(ob_format::specs::Words::then_at, ob_format::specs::Format::pair_at, ob_format::specs::Words::after_at))]
fn marked_of(alloc: Global, bytes: &[u8]) -> Result<(QName, Mark, TypeRef), Fault>
    ensures { Gives (λ x. ((x.0, x.1), x.2)) result (marked_text.parse bytes.now) }
{
    let (name, rest) = next_word(bytes)?;
    let name = dotted_of(alloc, name)?;
    let (mark, rest) = next_word(rest)?;
    let Some(mark) = mark_of(mark) else {
        return Err(Fault::Damaged);
    };
    let of = last_type(alloc, rest)?;
    Ok((name, mark, of))
}

#[tactic(auto, unfolding(crate::specs::Grammar::shape_by, ob_format::specs::Words::then_at, ob_format::specs::Format::pair_at, ob_format::specs::Words::after_at))]
fn array_of(alloc: Global, bytes: &[u8]) -> Result<(QName, Desc), Fault>
    ensures { Gives (λ x. x) result (shape_by Kind.Array bytes.now) }
{
    let (name, rest) = next_word(bytes)?;
    let name = dotted_of(alloc, name)?;
    let (mark, rest) = next_word(rest)?;
    let Some(mark) = mark_of(mark) else {
        return Err(Fault::Damaged);
    };
    let (len, rest) = next_word(rest)?;
    let Some(len) = count_of(len) else {
        return Err(Fault::Damaged);
    };
    let of = last_type(alloc, rest)?;
    Ok((name, Desc::Array(mark, len, of)))
}

#[tactic(auto, unfolding(crate::specs::Grammar::shape_by, ob_format::specs::Words::then_at, ob_format::specs::Format::pair_at, ob_format::specs::Words::after_at))]
fn proctype_of(alloc: Global, bytes: &[u8]) -> Result<(QName, Desc), Fault>
    ensures { Gives (λ x. x) result (shape_by Kind.ProcType bytes.now) }
{
    let (name, rest) = next_word(bytes)?;
    let name = dotted_of(alloc, name)?;
    let (mark, rest) = next_word(rest)?;
    let Some(mark) = mark_of(mark) else {
        return Err(Fault::Damaged);
    };
    let signature = last_signature(alloc, rest)?;
    Ok((name, Desc::ProcType(mark, signature)))
}

#[tactic(auto, unfolding(crate::specs::Grammar::shape_by, ob_format::specs::Words::then_at, ob_format::specs::Format::pair_at, ob_format::specs::Words::after_at))]
fn record_of(alloc: Global, bytes: &[u8]) -> Result<(QName, Desc), Fault>
    ensures { Gives (λ x. x) result (shape_by Kind.Record bytes.now) }
{
    let (name, rest) = next_word(bytes)?;
    let name = dotted_of(alloc, name)?;
    let (mark, rest) = next_word(rest)?;
    let Some(mark) = mark_of(mark) else {
        return Err(Fault::Damaged);
    };
    let (base, rest) = next_word(rest)?;
    let base = base_of(alloc, base)?;
    let (fields, methods) = members_of(alloc, rest)?;
    let record = RecordDesc {
        mark,
        base,
        fields,
        methods,
        words: 0,
        procedures: 0,
    };
    Ok((name, Desc::Record(record)))
}

fn kind_of(word: &[u8]) -> Option<Kind>
    ensures { result ≡ lookup kinds word.now }
{
    if word == b"const".as_slice() {
        Some(Kind::Const)
    } else if word == b"var".as_slice() {
        Some(Kind::Var)
    } else if word == b"proc".as_slice() {
        Some(Kind::Proc)
    } else if word == b"alias".as_slice() {
        Some(Kind::Alias)
    } else if word == b"array".as_slice() {
        Some(Kind::Array)
    } else if word == b"open".as_slice() {
        Some(Kind::OpenArray)
    } else if word == b"pointer".as_slice() {
        Some(Kind::Pointer)
    } else if word == b"proctype".as_slice() {
        Some(Kind::ProcType)
    } else if word == b"record".as_slice() {
        Some(Kind::Record)
    } else {
        None
    }
}

#[tactic(auto, unfolding(crate::specs::Grammar::shape_by))]
fn shape_by_kind(alloc: Global, kind: Kind, bytes: &[u8]) -> Result<(QName, Desc), Fault>
    ensures { Gives (λ x. x) result (shape_by kind bytes.now) }
{
    match kind {
        Kind::Const => const_of(alloc, bytes),
        Kind::Var => var_of(alloc, bytes),
        Kind::Proc => proc_of(alloc, bytes),
        Kind::Alias => {
            let (name, mark, of) = marked_of(alloc, bytes)?;
            Ok((name, Desc::Alias(mark, of)))
        }
        Kind::Array => array_of(alloc, bytes),
        Kind::OpenArray => {
            let (name, mark, of) = marked_of(alloc, bytes)?;
            Ok((name, Desc::OpenArray(mark, of)))
        }
        Kind::Pointer => {
            let (name, mark, of) = marked_of(alloc, bytes)?;
            Ok((name, Desc::Pointer(mark, of)))
        }
        Kind::ProcType => proctype_of(alloc, bytes),
        Kind::Record => record_of(alloc, bytes),
    }
}

/// The object and the description that a shape text spells, a record with no words and no bound
/// procedures counted.
#[tactic(auto, unfolding(crate::specs::Forms::chosen_at))]
pub fn shape_of(alloc: Global, text: &[u8]) -> Result<(QName, Desc), Fault>
    ensures { Gives (λ x. x) result (shape_at text.now) }
{
    let (keyword, rest) = split_at_byte(b' ', text);
    match kind_of(keyword) {
        None => Err(Fault::Damaged),
        Some(kind) => shape_by_kind(alloc, kind, rest),
    }
}
