//! The fields and bound procedures of a record, from its shape text.

ghost use Rattle.std.specs.Prelude.{◌≡◌, length};
ghost use Rattle.ob_format.specs.Format.{Gives};
ghost use Rattle.ob_format.specs.Words.{all_of};
ghost use Rattle.ob_format.specs.Order.{rises};
ghost use Rattle.ob_desc.specs.Forms.{lookup, run_at};
ghost use Rattle.ob_desc.specs.Grammar.{field, receivers, method, begins_field, members, by_place, by_number};

use crate::signatures::signature_of;
use crate::types::type_of;
use crate::words::{next_word, shown_mark_of, small_of};
use ob_format::{Fault, is_name, skip};
use ob_tree::{List, Name};
use ob_types::{Field, Mark, Method, Receiver};
use std::alloc::Global;
use std::cmp::Ordering;

#[tactic(auto, unfolding(crate::specs::Grammar::field, ob_format::specs::Format::lead_at, ob_format::specs::Format::made_at, ob_format::specs::Format::pair_at, ob_format::specs::Words::after_at, ob_format::specs::Words::identifier_at))]
fn field_of(alloc: Global, bytes: &[u8]) -> Result<(Field, &[u8]), Fault>
    ensures { Gives (λ x. (x.0, x.1.now)) result (field.take bytes.now) }
{
    let rest = skip(b" f", bytes)?;
    let (name, rest) = next_word(rest)?;
    if !is_name(name) {
        return Err(Fault::Damaged);
    }
    let (mark, rest) = next_word(rest)?;
    let Some(mark) = shown_mark_of(mark) else {
        return Err(Fault::Damaged);
    };
    let (place, rest) = next_word(rest)?;
    let Some(place) = small_of(place) else {
        return Err(Fault::Damaged);
    };
    let (of, rest) = next_word(rest)?;
    let of = type_of(alloc, of)?;
    let field = Field {
        name: Name::new(name),
        mark,
        place,
        of,
    };
    Ok((field, rest))
}

fn compare_fields(first: &Field, second: &Field) -> Ordering
    ensures { result ≡ by_place first.now second.now }
{
    let place = first.place.cmp(&second.place);
    if place != Ordering::Equal {
        return place;
    }
    first.name.as_bytes().cmp(second.name.as_bytes())
}

/// Whether fields stand in the order of their places, and at one place of their names.
pub fn fields_rise(fields: &[Field]) -> bool
    ensures { result ≡ rises by_place fields.now }
{
    let mut rest = fields;
    while let [first, second, ..] = rest {
        if compare_fields(first, second) != Ordering::Less {
            return false;
        }
        rest = &rest[1..];
    }
    true
}

fn receiver_of(word: &[u8]) -> Option<Receiver>
    ensures { result ≡ lookup receivers word.now }
{
    if word == b"v".as_slice() {
        Some(Receiver::Record)
    } else if word == b"p".as_slice() {
        Some(Receiver::Pointer)
    } else {
        None
    }
}

#[tactic(auto, unfolding(crate::specs::Grammar::method, ob_format::specs::Format::lead_at, ob_format::specs::Format::made_at, ob_format::specs::Format::pair_at, ob_format::specs::Words::after_at, ob_format::specs::Words::identifier_at))]
fn method_of(alloc: Global, bytes: &[u8]) -> Result<(Method, &[u8]), Fault>
    ensures { Gives (λ x. (x.0, x.1.now)) result (method.take bytes.now) }
{
    let rest = skip(b" p", bytes)?;
    let (name, rest) = next_word(rest)?;
    if !is_name(name) {
        return Err(Fault::Damaged);
    }
    let (number, rest) = next_word(rest)?;
    let Some(number) = small_of(number) else {
        return Err(Fault::Damaged);
    };
    let (receiver, rest) = next_word(rest)?;
    let Some(receiver) = receiver_of(receiver) else {
        return Err(Fault::Damaged);
    };
    let (signature, rest) = next_word(rest)?;
    let signature = signature_of(alloc, signature)?;
    let method = Method {
        name: Name::new(name),
        mark: Mark::Full,
        number,
        receiver,
        signature,
    };
    Ok((method, rest))
}

/// Whether bound procedures stand in the order of their numbers.
pub fn methods_rise(methods: &[Method]) -> bool
    ensures { result ≡ rises by_number methods.now }
{
    let mut rest = methods;
    while let [first, second, ..] = rest {
        if first.number.cmp(&second.number) != Ordering::Less {
            return false;
        }
        rest = &rest[1..];
    }
    true
}

fn begins_as_field(bytes: &[u8]) -> bool
    ensures { result ≡ begins_field bytes.now }
{
    match bytes {
        [first, second, ..] => *first == b' ' && *second == b'f',
        _ => false,
    }
}

// The fields at the front of the text, and what follows them.
fn fields_of(alloc: Global, bytes: &[u8]) -> Result<(List<Field>, &[u8]), Fault>
    ensures { Gives (λ x. (x.0, x.1.now)) result (run_at begins_field field.take (length bytes.now) bytes.now) }
{
    let mut items = List::new(alloc);
    let mut rest = bytes;
    for _ in 0..bytes.len() {
        if !begins_as_field(rest) {
            return Ok((items, rest));
        }
        let (item, after) = field_of(alloc, rest)?;
        items.push(item)?;
        rest = after;
    }
    if begins_as_field(rest) {
        return Err(Fault::Damaged);
    }
    Ok((items, rest))
}

// The bound procedures of which the text consists.
fn methods_of(alloc: Global, bytes: &[u8]) -> Result<List<Method>, Fault>
    ensures { Gives (λ x. x) result ((all_of method).parse bytes.now) }
{
    let mut items = List::new(alloc);
    let mut rest = bytes;
    for _ in 0..bytes.len() {
        if rest.is_empty() {
            return Ok(items);
        }
        let (item, after) = method_of(alloc, rest)?;
        items.push(item)?;
        rest = after;
    }
    if !rest.is_empty() {
        return Err(Fault::Damaged);
    }
    Ok(items)
}

/// The fields and bound procedures of which a text consists, both in order.
#[tactic(auto, unfolding(crate::specs::Grammar::members_at, crate::specs::Forms::kept_at))]
pub fn members_of(alloc: Global, bytes: &[u8]) -> Result<(List<Field>, List<Method>), Fault>
    ensures { Gives (λ x. x) result (members.parse bytes.now) }
{
    let (fields, rest) = fields_of(alloc, bytes)?;
    let methods = methods_of(alloc, rest)?;
    if !(fields_rise(fields.as_slice()) && methods_rise(methods.as_slice())) {
        return Err(Fault::Damaged);
    }
    Ok((fields, methods))
}
