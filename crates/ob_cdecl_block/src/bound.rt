//! What is judged when all headings of a sequence are known.

#![tactic(auto, using(ob_rules::proofs::BookLaws::after_none, ob_rules::proofs::BookLaws::after_joined))]

ghost use Rattle.std.specs.Prelude.{◌≡◌, ◌++◌, ℕ, List as Listed, reverse, OnOk};
ghost use Rattle.ob_cdecl_scopes.specs.Scopes.{around_of};
ghost use Rattle.ob_rules.specs.Books.{book_after};
ghost use Rattle.ob_rules.specs.Headings as heading;
ghost use Rattle.ob_rules.specs.Declarations as spec;
ghost use Rattle.ob_cdecl_heading.specs.Kept.{AreKept};
ghost use Rattle.ob_cdecl_block.specs.Steps.{kept_later, around_bound, bound_notes, left_block};

use ob_cdecl::append_notes;
use ob_cdecl_bound::{bind, fields_judged};
use ob_cdecl_heading::{Head, forwards_judged};
use ob_cdecl_scopes::{Imports, Marked, Scope, Stack};
use ob_rules::{Later, Notebook};
use ob_tree::List;
use ob_types::Types;
use std::alloc::{AllocError, Global};

// The fields that headings have left for later, the latest heading first.
fn heads_judged<T: Types>(
    alloc: Global,
    types: &T,
    book: &mut Notebook,
    heads: &[Head],
) -> Result<(), AllocError>
    ensures { OnOk result (book.new ≡ book_after book.old (spec.all_judged (spec.field_judged (T.types types.now)) (kept_later (reverse heads.now)))) }
{
    let mut i = heads.len();
    'heads: while i > 0 {
        i -= 1;
        fields_judged(alloc, types, book, heads[i].notes.later.as_slice())?;
    }
    Ok(())
}

// The fields that declarations and headings have left for later.
fn all_fields_judged<T: Types>(
    alloc: Global,
    types: &T,
    book: &mut Notebook,
    later: &[Later],
    heads: &[Head],
) -> Result<(), AllocError>
    ensures { (n : ℕ) (before : Listed heading.Head) → AreKept n heads.now (heading.reversed before) → OnOk result (book.new ≡ book_after book.old (spec.all_judged (spec.field_judged (T.types types.now)) (later.now ++ spec.heads_later before))) }
{
    fields_judged(alloc, types, book, later)?;
    heads_judged(alloc, types, book, heads)?;
    Ok(())
}

// Bound procedures stand at module level.
fn bind_at<E: Imports>(
    alloc: Global,
    scope: &mut Scope<'_, E>,
    book: &mut Notebook,
    level: bool,
    heads: &[Head],
) -> Result<(), AllocError>
    ensures around { (n : ℕ) (hs : Listed heading.Head) → AreKept n heads.now hs → OnOk result (around_of E.types scope.new ≡ spec.with_bound (around_of E.types scope.old) (spec.binding_at level (around_of E.types scope.old) hs)) }
    ensures noted { (n : ℕ) (hs : Listed heading.Head) → AreKept n heads.now hs → OnOk result (book.new ≡ book_after book.old (spec.binding_at level (around_of E.types scope.old) hs).notes) }
{
    if level {
        bind(alloc, scope, book, heads)
    } else {
        scope.set_coming(List::new(alloc));
        Ok(())
    }
}

/// From here on what is bound is known, and nothing comes any more. The fields that were left for
/// later are judged, and the forward declarations.
pub(crate) fn bound_told<E: Imports>(
    alloc: Global,
    scope: &mut Scope<'_, E>,
    book: &mut Notebook,
    level: bool,
    later: &[Later],
    heads: &[Head],
) -> Result<(), AllocError>
    ensures around { (n : ℕ) (hs : heading.Heads) → around_of E.types scope.old ≡ hs.around → AreKept n heads.now (heading.reversed hs.before) → OnOk result (around_of E.types scope.new ≡ around_bound level hs) }
    ensures noted { (n : ℕ) (hs : heading.Heads) → around_of E.types scope.old ≡ hs.around → AreKept n heads.now (heading.reversed hs.before) → OnOk result (book.new ≡ book_after book.old (bound_notes level later.now hs)) }
{
    let mut forwards = Notebook::new(alloc);
    forwards_judged(&*scope, &mut forwards, heads);
    bind_at(alloc, scope, book, level, heads)?;
    all_fields_judged(alloc, &*scope, book, later, heads)?;
    append_notes(book, forwards)?;
    Ok(())
}

/// Behind a sequence: below module level what it declares is not known any more. Takes no memory.
pub(crate) fn leave_block<E: Imports>(
    scope: &mut Scope<'_, E>,
    level: bool,
    mark: Marked,
    outer: Stack,
)
    ensures { around_of E.types scope.new ≡ left_block level mark outer (around_of E.types scope.old) }
{
    if !level {
        scope.cut_names(mark);
        scope.cut_types(mark);
        let _ = scope.set_later_types(outer);
    }
}
