//! Parameters that a predeclared procedure does not take.

ghost use Rattle.std.specs.Prelude.{◌≡◌, None};
ghost use Rattle.ob_rules.specs.Books.{book_after};
ghost use Rattle.ob_rules.specs.Predeclared as spec;

use ob_rules::{Meant, Notebook, Rule};
use ob_tree::Pos;

/// Rule 28: the parameters do not fit.
pub fn unfit(book: &mut Notebook, at: Pos) -> Option<Meant>
    ensures made { result ≡ (spec.if_fit at None).node }
    ensures noted { book.new ≡ book_after book.old (spec.if_fit at None).notes }
{
    book.breaks(Rule::UnfitPredeclaredParameters, at);
    None
}
