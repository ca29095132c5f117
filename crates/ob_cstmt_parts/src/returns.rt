//! EXIT and RETURN.

ghost use Rattle.std.specs.Prelude.{◌≡◌};
ghost use Rattle.std.specs.Option.{option_copied};
ghost use Rattle.ob_rules.specs.Books.{book_after};
ghost use Rattle.ob_rules.specs.Statements as spec;
ghost use Rattle.ob_cstmt_parts.specs.Seen.{stmt_in};

use ob_cexpr_name::{fits, tree_of};
use ob_rules::{Notebook, Rule, Surroundings, Valued};
use ob_tree::Pos;
use ob_types::{TypeRef, Types};
use ob_types_trees::StmtTree;

/// EXIT. Rule 35 where no LOOP of the procedure stands around. Takes no memory.
pub fn exit<S: Surroundings>(here: &S, book: &mut Notebook, at: Pos) -> Option<StmtTree>
    ensures made { stmt_in result ≡ (spec.exit (S.around here.now) at).node }
    ensures noted { book.new ≡ book_after book.old (spec.exit (S.around here.now) at).notes }
{
    if here.in_loop() {
        Some(StmtTree::exit())
    } else {
        book.breaks(Rule::MisplacedExit, at);
        None
    }
}

fn return_none(book: &mut Notebook, at: Pos, of: Option<&TypeRef>) -> Option<StmtTree>
    ensures made { stmt_in result ≡ (spec.return_none at (option_copied of.entry)).node }
    ensures noted { book.new ≡ book_after book.old (spec.return_none at (option_copied of.entry)).notes }
{
    match of {
        None => Some(StmtTree::leave(None)),
        Some(_) => {
            book.breaks(Rule::UnfitReturn, at);
            None
        }
    }
}

/// RETURN with a value. Rule 36 where the procedure gives no result, or none that the value fits.
/// Takes no memory.
pub fn returned<T: Types>(
    types: &T,
    book: &mut Notebook,
    at: Pos,
    of: Option<&TypeRef>,
    x: Valued,
) -> Option<StmtTree>
    ensures made { stmt_in result ≡ (spec.returned (T.types types.now) at (option_copied of.entry) x).node }
    ensures noted { book.new ≡ book_after book.old (spec.returned (T.types types.now) at (option_copied of.entry) x).notes }
{
    match of {
        None => {
            book.breaks(Rule::UnfitReturn, at);
            None
        }
        Some(t) => {
            if fits(types, t, &x) {
                Some(StmtTree::leave(Some(tree_of(x))))
            } else {
                book.breaks(Rule::UnfitReturn, at);
                None
            }
        }
    }
}

/// RETURN alone. Rule 36 where the procedure gives a result. Takes no memory.
pub fn return_alone<S: Surroundings>(here: &S, book: &mut Notebook, at: Pos) -> Option<StmtTree>
    ensures made { stmt_in result ≡ (spec.return_none at (S.around here.now).result).node }
    ensures noted { book.new ≡ book_after book.old (spec.return_none at (S.around here.now).result).notes }
{
    return_none(book, at, here.result_type())
}
