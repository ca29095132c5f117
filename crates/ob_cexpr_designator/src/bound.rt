//! Super calls.

ghost use Rattle.std.specs.Prelude.{◌≡◌, IfOk, OnOk, Some, None, ◌&&◌, not};
ghost use Rattle.std.specs.Option.{option_copied, option_map};
ghost use Rattle.ob_rules.specs.Books.{book_after};
ghost use Rattle.ob_rules.specs.Names.{map_of};
ghost use Rattle.ob_rules.specs.Designators as spec;
ghost use Rattle.ob_rules.specs.Shapes as shapes;
ghost use Rattle.ob_cexpr_name.specs.Members.{member_seen};

use crate::places::same_variable;
use ob_cexpr_name::{Member, base_record, find_member, types};
use ob_rules::{Chosen, Meant, Notebook, Received, Rule, Surroundings};
use ob_tree::{Pos, QName};
use ob_types::Types;
use ob_types_trees::copy_name;
use std::alloc::{AllocError, Global};

fn super_of(
    book: &mut Notebook,
    at: Pos,
    chosen: Chosen,
    base: QName,
    found: Option<Member>,
) -> Option<Meant>
    ensures made { result ≡ (spec.super_of at chosen base (option_map member_seen found)).node }
    ensures noted { book.new ≡ book_after book.old (spec.super_of at chosen base (option_map member_seen found)).notes }
{
    match found {
        Some(Member::Method(introduced, method)) => {
            Some(Meant::Bound(chosen.begun_at(introduced, method, base)))
        }
        _ => {
            book.breaks(Rule::UnfitSuperCall, at);
            None
        }
    }
}

fn super_in<T: Types>(
    alloc: Global,
    types: &T,
    book: &mut Notebook,
    at: Pos,
    chosen: Chosen,
    base: Option<&QName>,
) -> Result<Option<Meant>, AllocError>
    ensures made { IfOk result (λ r. r ≡ (spec.super_in (T.types types.now) at chosen (option_copied base.entry)).node) }
    ensures noted { OnOk result (book.new ≡ book_after book.old (spec.super_in (T.types types.now) at chosen (option_copied base.entry)).notes) }
{
    match base {
        None => {
            book.breaks(Rule::UnfitSuperCall, at);
            Ok(None)
        }
        Some(base) => {
            let from = copy_name(base)?;
            let found = find_member(alloc, types, base, &chosen.method.name)?;
            Ok(super_of(book, at, chosen, from, found))
        }
    }
}

fn super_if<T: Types>(
    alloc: Global,
    types: &T,
    book: &mut Notebook,
    at: Pos,
    chosen: Chosen,
    own: bool,
    owner: &QName,
) -> Result<Option<Meant>, AllocError>
    ensures made { IfOk result (λ r. r ≡ (spec.super_if own (T.types types.now) at chosen owner.now).node) }
    ensures noted { OnOk result (book.new ≡ book_after book.old (spec.super_if own (T.types types.now) at chosen owner.now).notes) }
{
    if own {
        super_in(alloc, types, book, at, chosen, base_record(types, owner))
    } else {
        book.breaks(Rule::UnfitSuperCall, at);
        Ok(None)
    }
}

fn is_own(chosen: &Chosen, received: &Received) -> bool
    ensures { result ≡ (spec.same_variable chosen.now.receiver.root received.now.variable && not chosen.now.receiver.selected) }
{
    same_variable(&chosen.receiver.root, &received.variable) && !chosen.receiver.selected
}

fn super_by<T: Types>(
    alloc: Global,
    types: &T,
    book: &mut Notebook,
    at: Pos,
    chosen: Chosen,
    received: Option<&Received>,
) -> Result<Option<Meant>, AllocError>
    ensures made { IfOk result (λ r. r ≡ (spec.super (T.types types.now) at chosen (option_copied received.entry)).node) }
    ensures noted { OnOk result (book.new ≡ book_after book.old (spec.super (T.types types.now) at chosen (option_copied received.entry)).notes) }
{
    match received {
        None => {
            book.breaks(Rule::UnfitSuperCall, at);
            Ok(None)
        }
        Some(received) => {
            let own = is_own(&chosen, received);
            super_if(alloc, types, book, at, chosen, own, &received.owner)
        }
    }
}

/// The procedure of a super call. None where it breaks rule 40.
pub fn super_call<S: Surroundings>(
    alloc: Global,
    here: &S,
    book: &mut Notebook,
    at: Pos,
    chosen: Chosen,
) -> Result<Option<Meant>, AllocError>
    ensures made { IfOk result (λ r. r ≡ (spec.super (map_of (S.around here.now)) at chosen (S.around here.now).receiver).node) }
    ensures noted { OnOk result (book.new ≡ book_after book.old (spec.super (map_of (S.around here.now)) at chosen (S.around here.now).receiver).notes) }
{
    super_by(alloc, types(here), book, at, chosen, here.receiver())
}
