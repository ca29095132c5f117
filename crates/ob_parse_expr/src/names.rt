//! Names.

ghost use Rattle.std.specs.Prelude.{◌≡◌};
ghost use Rattle.ob_tree.specs.declared.symbol.Symbol.TheVariants as s;
ghost use Rattle.ob_parse_grammar.specs.Phrase.{many};
ghost use Rattle.ob_parse_grammar.specs.Reading.{starts};
ghost use Rattle.ob_parse_grammar.specs.Expressions as spec;
ghost use Rattle.ob_parse_grammar.specs.Grammar.{reads, begins};
ghost use Rattle.ob_parse_expr.specs.Contract.{Gives, Reads};

use crate::cursor::Cursor;
use ob_parse_grammar::ParseFault;
use ob_tree::{Ident, IdentDef, List, Mark, Qualident, Symbol, Token};
use std::alloc::Global;

fn mark_of(symbol: Symbol) -> Mark
    ensures { result ≡ spec.mark_of symbol }
{
    match symbol {
        Symbol::Star => Mark::Full,
        _ => Mark::ReadOnly,
    }
}

fn sees_mark(tokens: &Cursor<'_>) -> bool
    ensures { result ≡ starts (begins spec.mark_symbol) tokens.now }
{
    tokens.sees(Symbol::Star) || tokens.sees(Symbol::Minus)
}

fn mark<'a>(tokens: &mut Cursor<'a>) -> Result<Token<'a>, ParseFault>
    ensures { Gives (reads 0 spec.mark_symbol tokens.old) result tokens.new }
{
    if tokens.sees(Symbol::Star) {
        tokens.token(Symbol::Star)
    } else {
        tokens.token(Symbol::Minus)
    }
}

/// A name, which may have a qualifier and a dot before it; else Syntax at the token at fault.
pub fn qualident(tokens: &mut Cursor<'_>) -> Result<Qualident, ParseFault>
    ensures { Reads (reads 0 spec.qualident tokens.old) result tokens.new }
{
    let first = tokens.ident()?;
    if tokens.sees(Symbol::Dot) {
        tokens.expect(Symbol::Dot)?;
        let ident = tokens.ident()?;
        Ok(Qualident {
            qualifier: Some(first),
            ident,
        })
    } else {
        Ok(Qualident {
            qualifier: None,
            ident: first,
        })
    }
}

/// A name to be declared, with its mark; else Syntax at the token at fault.
pub fn ident_def(tokens: &mut Cursor<'_>) -> Result<IdentDef, ParseFault>
    ensures { Reads (reads 0 spec.ident_def tokens.old) result tokens.new }
{
    let ident = tokens.ident()?;
    if sees_mark(tokens) {
        let t = mark(tokens)?;
        Ok(IdentDef {
            ident,
            mark: mark_of(t.symbol),
            mark_pos: t.pos,
        })
    } else {
        Ok(IdentDef {
            ident,
            mark: Mark::Hidden,
            mark_pos: ident.pos,
        })
    }
}

fn next_ident_def(tokens: &mut Cursor<'_>) -> Result<IdentDef, ParseFault>
    ensures { Reads (reads 0 (spec.next_of s.Comma spec.ident_def) tokens.old) result tokens.new }
{
    tokens.expect(Symbol::Comma)?;
    let x = ident_def(tokens)?;
    Ok(x)
}

/// Names to be declared, with commas between; else Syntax at the token at fault, or Memory.
pub fn ident_list(alloc: Global, tokens: &mut Cursor<'_>) -> Result<List<IdentDef>, ParseFault>
    ensures { Reads (reads 0 spec.ident_list tokens.old) result tokens.new }
{
    let first = ident_def(tokens)?;
    let mut found = List::new(alloc);
    found.push(first)?;
    'more: while tokens.sees(Symbol::Comma) {
        let x = next_ident_def(tokens)?;
        found.push(x)?;
    }
    Ok(found)
}

fn next_ident(tokens: &mut Cursor<'_>) -> Result<Ident, ParseFault>
    ensures { Reads (reads 0 (spec.next_of s.Comma spec.ident) tokens.old) result tokens.new }
{
    tokens.expect(Symbol::Comma)?;
    let x = tokens.ident()?;
    Ok(x)
}

/// Names with commas between; else Syntax at the token at fault, or Memory.
pub fn idents(alloc: Global, tokens: &mut Cursor<'_>) -> Result<List<Ident>, ParseFault>
    ensures { Reads (reads 0 (spec.separated s.Comma spec.ident) tokens.old) result tokens.new }
{
    let first = tokens.ident()?;
    let mut found = List::new(alloc);
    found.push(first)?;
    'more: while tokens.sees(Symbol::Comma) {
        let x = next_ident(tokens)?;
        found.push(x)?;
    }
    Ok(found)
}
