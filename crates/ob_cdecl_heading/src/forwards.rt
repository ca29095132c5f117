//! Forward declarations, and their procedures.

#![tactic(auto, using(ob_rules::proofs::BookLaws::after_none, ob_rules::proofs::BookLaws::after_joined))]

ghost use Rattle.std.specs.Prelude.{◌≡◌, ℕ, List, true, map, OnOk};
ghost use Rattle.std.specs.List.{find};
ghost use Rattle.std.specs.Option.{option_map, option_copied};
ghost use Rattle.ob_cdecl_field.specs.Makes.{parameters_of};
ghost use Rattle.ob_rules.specs.Books.{book_after};
ghost use Rattle.ob_rules.specs.Headings as spec;
ghost use Rattle.ob_cdecl_heading.specs.Kept.{AreKept, seen, bound_seen};
ghost use Rattle.ob_cdecl_heading.specs.Answering.{alike, differs as differ};

use crate::head::{BoundAs, Head};
use ob_cdecl_field::Parameters;
use ob_rules::{Notebook, Rule};
use ob_tree::Name;
use ob_types::{Receiver, Types, is_same_at, signatures_match};
use std::alloc::{AllocError, Global};

fn is_same_bound(
    first: &Option<BoundAs>,
    second: &Option<BoundAs>,
    name: &Name,
    another: &Name,
) -> bool
    ensures { result ≡ spec.answers_by true true (option_map bound_seen first.now) (option_map bound_seen second.now) name.now another.now }
{
    match first {
        None => false,
        Some(first) => match second {
            None => false,
            Some(second) => {
                first.owner.object.as_bytes() == second.owner.object.as_bytes()
                    && name.as_bytes() == another.as_bytes()
            }
        },
    }
}

fn is_same_procedure(forward: &Head, head: &Head) -> bool
    ensures { result ≡ spec.answers_by forward.now.is_bound head.now.is_bound (option_map bound_seen forward.now.bound) (option_map bound_seen head.now.bound) forward.now.name head.now.name }
{
    if forward.is_bound {
        if head.is_bound {
            is_same_bound(&forward.bound, &head.bound, &forward.name, &head.name)
        } else {
            false
        }
    } else if head.is_bound {
        false
    } else {
        forward.name.as_bytes() == head.name.as_bytes()
    }
}

fn is_answer(forward: &Head, head: &Head) -> bool
    ensures { result ≡ spec.answers (seen forward.now) (seen head.now) }
{
    !head.forward && is_same_procedure(forward, head)
}

/// The procedure of a forward declaration, among headings in the order of the text. Takes no memory.
pub fn answer_of<'a>(heads: &'a [Head], forward: &Head) -> Option<&'a Head>
    ensures { option_map seen (option_copied result) ≡ find (spec.answers (seen forward.now)) (map seen heads.now) }
{
    'heads: for head in heads {
        if is_answer(forward, head) {
            return Some(head);
        }
    }
    None
}

/// Whether two receivers are of the same kind. Takes no memory.
pub fn is_same_kind(first: Receiver, second: Receiver) -> bool
    ensures { result ≡ spec.same_kind first second }
{
    match first {
        Receiver::Record => match second {
            Receiver::Record => true,
            Receiver::Pointer => false,
        },
        Receiver::Pointer => match second {
            Receiver::Record => false,
            Receiver::Pointer => true,
        },
    }
}

fn is_same_receiver<T: Types>(types: &T, first: &Option<BoundAs>, second: &Option<BoundAs>) -> bool
    ensures { result ≡ spec.same_receiver (T.types types.now) (option_map bound_seen first.now) (option_map bound_seen second.now) }
{
    match first {
        None => match second {
            None => true,
            Some(_) => false,
        },
        Some(first) => match second {
            None => false,
            Some(second) => {
                is_same_kind(first.receiver, second.receiver)
                    && is_same_at(types, &first.of, &second.of)
            }
        },
    }
}

fn are_alike<T: Types>(
    types: &T,
    first: &Parameters,
    second: &Parameters,
    bound: &Option<BoundAs>,
    another: &Option<BoundAs>,
) -> bool
    ensures { result ≡ alike (T.types types.now) (parameters_of first.now) (parameters_of second.now) (option_map bound_seen bound.now) (option_map bound_seen another.now) }
{
    signatures_match(types, &first.signature, &second.signature)
        && is_same_receiver(types, bound, another)
}

fn differs<T: Types>(types: &T, forward: &Head, head: &Head) -> bool
    ensures { result ≡ differ (T.types types.now) (seen forward.now) (seen head.now) }
{
    match &forward.parameters {
        None => false,
        Some(first) => match &head.parameters {
            None => false,
            Some(second) => !are_alike(types, first, second, &forward.bound, &head.bound),
        },
    }
}

fn is_broken<T: Types>(types: &T, forward: &Head, head: Option<&Head>) -> bool
    ensures { result ≡ spec.forward_broken (T.types types.now) (seen forward.now) (option_map seen (option_copied head.entry)) }
{
    match head {
        None => true,
        Some(head) => differs(types, forward, head),
    }
}

// Rule 18.
fn forward_if<T: Types>(types: &T, book: &mut Notebook, heads: &[Head], head: &Head)
    ensures { book.new ≡ book_after book.old (spec.forward_if head.now.forward (T.types types.now) (map seen heads.now) (seen head.now)) }
{
    if head.forward {
        book.breaks_if(
            is_broken(types, head, answer_of(heads, head)),
            Rule::UnmatchedForward,
            head.at,
        );
    }
}

fn judge_forwards<T: Types>(types: &T, book: &mut Notebook, heads: &[Head])
    ensures { book.new ≡ book_after book.old (spec.forwards_judged (T.types types.now) (map seen heads.now) (map seen heads.now)) }
{
    'heads: for head in heads {
        forward_if(types, book, heads, head);
    }
}

/// Rule 18 of the forward declarations among these headings, which stand in the order of the text.
/// Takes no memory.
#[tactic(auto, using(crate::proofs::ForwardLaws::forwards_seen))]
pub fn forwards_judged<T: Types>(types: &T, book: &mut Notebook, heads: &[Head])
    ensures { (n : ℕ) (hs : List spec.Head) → AreKept n heads.now hs → book.new ≡ book_after book.old (spec.forwards_judged (T.types types.now) hs hs) }
{
    judge_forwards(types, book, heads)
}
