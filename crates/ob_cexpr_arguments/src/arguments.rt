//! Arguments that are judged already.

ghost use Rattle.std.specs.Prelude.{◌≡◌, IfOk, OnOk};
ghost use Rattle.ob_rules.specs.Books.{book_after};
ghost use Rattle.ob_cexpr_arguments.specs.Arguments.{value_left};

use ob_cexpr_operand::value_if;
use ob_rules::{Meant, Notebook, Valued};
use ob_tree::Pos;
use std::alloc::{AllocError, Global};

/// An argument that is judged, and noted, but of which nothing is asked yet: what a designator comes
/// to, or the value of another expression. None where it breaks a rule.
#[derive(Drop)]
pub enum Argument {
    Designator(Option<Meant>),
    Other(Option<Valued>),
}

/// Its value. None where it breaks a rule.
pub fn value_of(
    alloc: Global,
    book: &mut Notebook,
    start: Pos,
    argument: Argument,
) -> Result<Option<Valued>, AllocError>
    ensures made { IfOk result (λ r. r ≡ (value_left start argument).node) }
    ensures noted { OnOk result (book.new ≡ book_after book.old (value_left start argument).notes) }
{
    match argument {
        Argument::Designator(meant) => value_if(alloc, book, start, meant),
        Argument::Other(x) => Ok(x),
    }
}
