//! Marks of declared names, and where they may stand.

#![tactic(auto, using(ob_rules::proofs::BookLaws::after_none, ob_rules::proofs::BookLaws::after_joined))]

ghost use Rattle.std.specs.Prelude.{◌≡◌};
ghost use Rattle.ob_cdecl_scopes.specs.Scopes.{around_of};
ghost use Rattle.ob_rules.specs.Books.{book_after};
ghost use Rattle.ob_rules.specs.Types as spec;

use ob_cdecl_scopes::{Imports, Scope};
use ob_rules::{Notebook, Rule, Surroundings};
use ob_tree::{IdentDef, Mark};

/// Whether the innermost scope is the module's.
pub fn is_module_level<E: Imports>(scope: &Scope<'_, E>) -> bool
    ensures { result ≡ spec.is_module_level (around_of E.types scope.now) }
{
    match scope.path() {
        [] => true,
        [_, ..] => false,
    }
}

// Rule 6.
fn mark_of(book: &mut Notebook, level: bool, minus: bool, d: &IdentDef) -> Option<Mark>
    ensures made { result ≡ (spec.mark_of level minus d.now.mark_pos d.now.mark).node }
    ensures noted { book.new ≡ book_after book.old (spec.mark_of level minus d.now.mark_pos d.now.mark).notes }
{
    match d.mark {
        Mark::Hidden => Some(Mark::Hidden),
        Mark::ReadOnly => {
            if level && minus {
                Some(Mark::ReadOnly)
            } else {
                book.breaks(Rule::MisplacedMark, d.mark_pos);
                None
            }
        }
        Mark::Full => {
            if level {
                Some(Mark::Full)
            } else {
                book.breaks(Rule::MisplacedMark, d.mark_pos);
                None
            }
        }
    }
}

/// The mark of a declared name; `-` may stand where `minus` is true. None where it breaks rule 6.
pub fn check_mark<E: Imports>(
    scope: &Scope<'_, E>,
    book: &mut Notebook,
    minus: bool,
    d: &IdentDef,
) -> Option<Mark>
    ensures made { result ≡ (spec.marked (around_of E.types scope.now) minus d.now).node }
    ensures noted { book.new ≡ book_after book.old (spec.marked (around_of E.types scope.now) minus d.now).notes }
{
    mark_of(book, is_module_level(scope), minus, d)
}
