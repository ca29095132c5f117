//! What has no expression in it: literals, `^`, and a field.

ghost use Rattle.std.specs.Prelude.{◌≡◌, IfOk};
ghost use Rattle.ob_tree.specs.declared.symbol.Symbol.TheVariants as s;
ghost use Rattle.ob_parse_grammar.specs.Expressions as spec;
ghost use Rattle.ob_parse_grammar.specs.Grammar.{reads};
ghost use Rattle.ob_parse_expr.specs.Contract.{Adds, Reads};

use crate::cursor::Cursor;
use ob_parse_grammar::ParseFault;
use ob_tree::{Boxed, Expr, List, Operator, Relation, Selector, Sign, Spelling, Symbol, Tail};
use std::alloc::{AllocError, Global};

#[inline(never)]
pub fn int(alloc: Global, tokens: &mut Cursor<'_>) -> Result<Expr, ParseFault>
    ensures { Reads (reads 0 spec.int tokens.old) result tokens.new }
{
    let t = tokens.token(Symbol::Int)?;
    let text = Spelling::from_slice(alloc, t.text)?;
    Ok(Expr::Int { pos: t.pos, text })
}

#[inline(never)]
pub fn char(alloc: Global, tokens: &mut Cursor<'_>) -> Result<Expr, ParseFault>
    ensures { Reads (reads 0 spec.char tokens.old) result tokens.new }
{
    let t = tokens.token(Symbol::Char)?;
    let text = Spelling::from_slice(alloc, t.text)?;
    Ok(Expr::Char { pos: t.pos, text })
}

// What stands between the marks of a string.
fn between_marks(text: &[u8]) -> &[u8]
    ensures { result.now ≡ spec.between_marks text.now }
{
    match text {
        [] => text,
        [_, rest @ ..] => {
            if rest.is_empty() {
                rest
            } else {
                &rest[..rest.len() - 1]
            }
        }
    }
}

#[inline(never)]
pub fn string(alloc: Global, tokens: &mut Cursor<'_>) -> Result<Expr, ParseFault>
    ensures { Reads (reads 0 spec.string tokens.old) result tokens.new }
{
    let t = tokens.token(Symbol::Str)?;
    let text = Spelling::from_slice(alloc, between_marks(t.text))?;
    Ok(Expr::Str { pos: t.pos, text })
}

#[inline(never)]
pub fn nil(tokens: &mut Cursor<'_>) -> Result<Expr, ParseFault>
    ensures { Reads (reads 0 spec.nil tokens.old) result tokens.new }
{
    let pos = tokens.expect(Symbol::KwNil)?;
    Ok(Expr::Nil(pos))
}

/// A field, behind the selectors that were found before.
#[inline(never)]
pub fn field(
    alloc: Global,
    tokens: &mut Cursor<'_>,
    found: &mut List<Selector>,
) -> Result<(), ParseFault>
    ensures { Adds (reads 0 spec.field tokens.old) found.old result found.new tokens.new }
{
    let pos = tokens.expect(Symbol::Dot)?;
    let ident = tokens.mention(alloc)?;
    found.push(Selector::Field { pos, ident })?;
    Ok(())
}

/// `^`, behind the selectors that were found before.
#[inline(never)]
pub fn deref(tokens: &mut Cursor<'_>, found: &mut List<Selector>) -> Result<(), ParseFault>
    ensures { Adds (reads 0 spec.deref tokens.old) found.old result found.new tokens.new }
{
    let pos = tokens.expect(Symbol::Caret)?;
    found.push(Selector::Deref(pos))?;
    Ok(())
}

pub fn operator_of(symbol: Symbol) -> Operator
    ensures { result ≡ spec.operator_of symbol }
{
    match symbol {
        Symbol::Plus => Operator::Add,
        Symbol::Minus => Operator::Subtract,
        Symbol::KwOr => Operator::Or,
        Symbol::Star => Operator::Multiply,
        Symbol::Slash => Operator::Divide,
        Symbol::KwDiv => Operator::Quotient,
        Symbol::KwMod => Operator::Remainder,
        _ => Operator::And,
    }
}

pub fn relation_of(symbol: Symbol) -> Relation
    ensures { result ≡ spec.relation_of symbol }
{
    match symbol {
        Symbol::Equal => Relation::Equal,
        Symbol::Hash => Relation::NotEqual,
        Symbol::Less => Relation::Less,
        Symbol::LessEqual => Relation::LessEqual,
        Symbol::Greater => Relation::Greater,
        Symbol::GreaterEqual => Relation::GreaterEqual,
        Symbol::KwIn => Relation::In,
        _ => Relation::Is,
    }
}

pub fn sign_of(symbol: Symbol) -> Sign
    ensures { result ≡ spec.sign_of symbol }
{
    match symbol {
        Symbol::Plus => Sign::Plus,
        _ => Sign::Minus,
    }
}

/// A first operand and what follows it; where nothing does, the operand alone.
pub fn chain(alloc: Global, first: Expr, tails: List<Tail>) -> Result<Expr, AllocError>
    ensures { IfOk result (λ x. x ≡ spec.chain_of (first, tails)) }
{
    if tails.is_empty() {
        Ok(first)
    } else {
        let operand = Boxed::new(alloc, first)?;
        Ok(Expr::Chain { operand, tails })
    }
}
