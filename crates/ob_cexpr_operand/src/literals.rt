//! Literals.

ghost use Rattle.std.specs.Prelude.{◌≡◌, IfOk, OnOk};
ghost use Rattle.ob_rules.specs.Books.{book_after};
ghost use Rattle.ob_rules.specs.Expressions as spec;
ghost use Rattle.ob_rules.specs.Judged as judged;
ghost use Rattle.ob_rules.specs.Values as values;
ghost use Rattle.ob_rules.specs.Constants.{text_value};
ghost use Rattle.ob_cexpr_operand.specs.Plain.{literal_judged};

use ob_const::{char_value, integer_value, string_value};
use ob_rules::{Notebook, Rule, Valued};
use ob_tree::Pos;
use ob_types::Value;
use std::alloc::{AllocError, Global};

// The constant; rule 9 where there is none.
fn literal(book: &mut Notebook, at: Pos, value: Option<Value>) -> Option<Valued>
    ensures made { result ≡ (literal_judged at value).node }
    ensures noted { book.new ≡ book_after book.old (literal_judged at value).notes }
{
    match value {
        None => {
            book.breaks(Rule::LiteralTooLarge, at);
            None
        }
        Some(value) => Some(Valued::Constant(value)),
    }
}

/// An integer. None where it breaks rule 9. Takes no memory.
#[tactic(auto, using(crate::proofs::LiteralLaws::literal_node, crate::proofs::LiteralLaws::literal_noted))]
pub fn integer(book: &mut Notebook, at: Pos, text: &[u8]) -> Option<Valued>
    ensures made { result ≡ (spec.integer_literal at (spec.integer_text text.now)).node }
    ensures noted { book.new ≡ book_after book.old (spec.integer_literal at (spec.integer_text text.now)).notes }
{
    literal(book, at, integer_value(text))
}

/// A character. None where it breaks rule 9. Takes no memory.
#[tactic(auto, using(crate::proofs::LiteralLaws::literal_node, crate::proofs::LiteralLaws::literal_noted))]
pub fn character(book: &mut Notebook, at: Pos, text: &[u8]) -> Option<Valued>
    ensures made { result ≡ (spec.char_literal at (spec.marked 0 text.now)).node }
    ensures noted { book.new ≡ book_after book.old (spec.char_literal at (spec.marked 0 text.now)).notes }
{
    literal(book, at, char_value(text))
}

/// A string.
#[inline(never)]
pub fn string(alloc: Global, text: &[u8]) -> Result<Option<Valued>, AllocError>
    ensures { IfOk result (λ r. r ≡ (judged.sound (values.constant (text_value text.now))).node) }
{
    let value = string_value(alloc, text)?;
    Ok(Some(Valued::Constant(value)))
}
