//! What declarations and headings have left for later, in one list.

#![tactic(auto)]

ghost use Rattle.std.specs.Prelude.{◌≡◌, ◌++◌, ℕ, reverse, IfOk, OnOk};
ghost use Rattle.ob_cdecl_scopes.specs.Scopes.{around_of};
ghost use Rattle.ob_rules.specs.Books.{book_after};
ghost use Rattle.ob_rules.specs.Headings as heading;
ghost use Rattle.ob_rules.specs.Declarations as spec;
ghost use Rattle.ob_cdecl_heading.specs.Kept.{AreKept};
ghost use Rattle.ob_cdecl_block.specs.Steps.{kept_later};

use ob_cdecl_bound::pointers_judged;
use ob_cdecl_heading::Head;
use ob_cdecl_scopes::{Imports, Scope};
use ob_rules::{Later, Notebook};
use ob_tree::List;
use ob_types_trees::copy_type;
use std::alloc::{AllocError, Global};

fn copy_of(left: &Later) -> Result<Later, AllocError>
    ensures { IfOk result (λ r. r ≡ left.now) }
{
    match left {
        Later::PointsTo {
            pointer,
            at,
            base,
            inline,
        } => Ok(Later::PointsTo {
            pointer: pointer.clone()?,
            at: *at,
            base: copy_type(base)?,
            inline: *inline,
        }),
        Later::Inherits { field, base } => Ok(Later::Inherits {
            field: *field,
            base: copy_type(base)?,
        }),
    }
}

fn put_all(all: &mut List<Later>, later: &[Later]) -> Result<(), AllocError>
    ensures { OnOk result (all.new ≡ all.old ++ later.now) }
{
    'all: for left in later {
        all.push(copy_of(left)?)?;
    }
    Ok(())
}

// What declarations have left, and behind it what headings have, the latest heading first.
fn all_left(alloc: Global, later: &[Later], heads: &[Head]) -> Result<List<Later>, AllocError>
    ensures { IfOk result (λ r. r ≡ later.now ++ kept_later (reverse heads.now)) }
{
    let mut all = List::new(alloc);
    put_all(&mut all, later)?;
    let mut i = heads.len();
    'heads: while i > 0 {
        i -= 1;
        put_all(&mut all, heads[i].notes.later.as_slice())?;
    }
    Ok(all)
}

/// Rule 15 of the pointers that declarations and headings have left, where all headings are known.
pub(crate) fn pointers_told<E: Imports>(
    alloc: Global,
    scope: &Scope<'_, E>,
    book: &mut Notebook,
    later: &[Later],
    heads: &[Head],
) -> Result<(), AllocError>
    ensures { (n : ℕ) (hs : heading.Heads) → around_of E.types scope.now ≡ hs.around → AreKept n heads.now (heading.reversed hs.before) → OnOk result (book.new ≡ book_after book.old (spec.pointers_judged hs.around (later.now ++ spec.heads_later hs.before))) }
{
    let left = all_left(alloc, later, heads)?;
    pointers_judged(alloc, scope, book, left.as_slice())?;
    Ok(())
}
