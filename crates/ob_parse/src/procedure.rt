//! Procedures, and sequences of declarations. `levels` is how many levels of nesting are left.

ghost use Rattle.std.specs.Prelude.{◌≡◌};
ghost use Rattle.ob_tree.specs.declared.symbol.Symbol.TheVariants as s;
ghost use Rattle.ob_parse_grammar.specs.Phrase.{Procedure, many, fork};
ghost use Rattle.ob_parse_grammar.specs.Declarations as spec;
ghost use Rattle.ob_parse_grammar.specs.Grammar.{reads};
ghost use Rattle.ob_parse_expr.specs.Contract.{Reads};

use crate::decl::{blocks, forward, heading};
use ob_parse_expr::Cursor;
use ob_parse_grammar::ParseFault;
use ob_parse_stmt::nested_statements;
use ob_tree::{Decl, List, Stmt, Symbol};
use std::alloc::Global;

/// The statements behind BEGIN; none where that is not written.
pub fn body(alloc: Global, tokens: &mut Cursor<'_>, levels: usize) -> Result<List<Stmt>, ParseFault>
    ensures { Reads (reads levels spec.body tokens.old) result tokens.new }
{
    if tokens.sees(Symbol::KwBegin) {
        tokens.expect(Symbol::KwBegin)?;
        let statements = nested_statements(alloc, tokens, levels)?;
        Ok(statements)
    } else {
        Ok(List::new(alloc))
    }
}

// Behind its PROCEDURE.
#[cycle(procedures)]
fn procedure(alloc: Global, tokens: &mut Cursor<'_>, levels: usize) -> Result<Decl, ParseFault>
    ensures { Reads (reads levels spec.procedure tokens.old) result tokens.new }
{
    let heading = heading(alloc, tokens, levels)?;
    tokens.expect(Symbol::Semicolon)?;
    let decls = declarations(alloc, tokens, levels)?;
    let body = body(alloc, tokens, levels)?;
    tokens.expect(Symbol::KwEnd)?;
    let closing = tokens.ident()?;
    Ok(Decl::Procedure {
        heading,
        decls,
        body,
        closing,
    })
}

// PROCEDURE and what is behind it: a forward declaration takes no level, and a procedure takes
// one, which its PROCEDURE is inside of.
#[cycle(procedures)]
fn forked(alloc: Global, tokens: &mut Cursor<'_>, levels: usize) -> Result<Decl, ParseFault>
    ensures { Reads (reads levels (fork s.KwProcedure Procedure spec.forward) tokens.old) result tokens.new }
{
    let pos = tokens.expect(Symbol::KwProcedure)?;
    if tokens.sees(Symbol::Caret) {
        forward(alloc, tokens, levels)
    } else if levels == 0 {
        Err(ParseFault::TooDeep { pos })
    } else {
        procedure(alloc, tokens, levels - 1)
    }
}

#[cycle(procedures)]
fn procedure_item(alloc: Global, tokens: &mut Cursor<'_>, levels: usize) -> Result<Decl, ParseFault>
    ensures { Reads (reads levels spec.procedure_item tokens.old) result tokens.new }
{
    let x = forked(alloc, tokens, levels)?;
    tokens.expect(Symbol::Semicolon)?;
    Ok(x)
}

#[cycle(procedures)]
fn procedure_items(
    alloc: Global,
    tokens: &mut Cursor<'_>,
    levels: usize,
) -> Result<List<Decl>, ParseFault>
    ensures { Reads (reads levels (many spec.procedure_item) tokens.old) result tokens.new }
{
    let mut found = List::new(alloc);
    'more: while tokens.sees(Symbol::KwProcedure) {
        let x = procedure_item(alloc, tokens, levels)?;
        found.push(x)?;
    }
    Ok(found)
}

/// Constants, types and variables, and then procedures.
#[cycle(procedures)]
pub fn declarations(
    alloc: Global,
    tokens: &mut Cursor<'_>,
    levels: usize,
) -> Result<List<Decl>, ParseFault>
    ensures { Reads (reads levels spec.declarations tokens.old) result tokens.new }
{
    let mut found = blocks(alloc, tokens, levels)?;
    let procedures = procedure_items(alloc, tokens, levels)?;
    found.append(procedures)?;
    Ok(found)
}
