//! Notebooks that are kept apart for a while.

ghost use Rattle.std.specs.Prelude.{◌≡◌, [], OnOk};
ghost use Rattle.ob_rules.specs.Books.{book_after, empty_book};
ghost use Rattle.ob_rules.specs.Judged.{Notes};

use ob_rules::{Later, Notebook, earlier};
use ob_tree::List;
use std::alloc::{AllocError, Global};

/// What another notebook has is noted behind what this one has.
#[tactic(auto, using(crate::proofs::BookJoins::appended))]
pub fn append_notes(book: &mut Notebook, other: Notebook) -> Result<(), AllocError>
    ensures { (n : Notes) → other ≡ book_after empty_book n → OnOk result (book.new ≡ book_after book.old n) }
{
    let Notebook {
        broken,
        objects,
        types,
        lengths,
        later,
    } = other;
    book.broken = earlier(book.broken, broken);
    book.objects.append(objects)?;
    book.types.append(types)?;
    book.lengths.append(lengths)?;
    book.later.append(later)
}

/// Hands out what is judged later. Takes no memory.
pub fn take_later(alloc: Global, book: &mut Notebook) -> List<Later>
    ensures taken { result ≡ book.old.later }
    ensures left { book.new ≡ record book.old { later = [] } }
{
    std::mem::replace(&mut book.later, List::new(alloc))
}
