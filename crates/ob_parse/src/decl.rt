//! Declarations of constants, types and variables, and headings of procedures.

ghost use Rattle.std.specs.Prelude.{◌≡◌};
ghost use Rattle.ob_tree.specs.declared.symbol.Symbol.TheVariants as s;
ghost use Rattle.ob_parse_grammar.specs.Phrase.{many};
ghost use Rattle.ob_parse_grammar.specs.Expressions as expr;
ghost use Rattle.ob_parse_grammar.specs.Declarations as spec;
ghost use Rattle.ob_parse_grammar.specs.Grammar.{reads};
ghost use Rattle.ob_parse_expr.specs.Contract.{Reads};

use crate::heading::receiver;
use crate::start::sees_block;
use crate::type_node::{nested_type, parameters};
use ob_parse_expr::{Cursor, ident_def, ident_list, nested_expr};
use ob_parse_grammar::ParseFault;
use ob_tree::{Decl, Heading, List, Symbol};
use std::alloc::Global;

fn constant(alloc: Global, tokens: &mut Cursor<'_>, levels: usize) -> Result<Decl, ParseFault>
    ensures { Reads (reads levels spec.constant tokens.old) result tokens.new }
{
    let name = ident_def(tokens)?;
    tokens.expect(Symbol::Equal)?;
    let value = nested_expr(alloc, tokens, levels)?;
    tokens.expect(Symbol::Semicolon)?;
    Ok(Decl::Constant { name, value })
}

fn constants(
    alloc: Global,
    tokens: &mut Cursor<'_>,
    levels: usize,
) -> Result<List<Decl>, ParseFault>
    ensures { Reads (reads levels (expr.next_of s.KwConst (many spec.constant)) tokens.old) result tokens.new }
{
    tokens.expect(Symbol::KwConst)?;
    let found = more_constants(alloc, tokens, levels)?;
    Ok(found)
}

fn more_constants(
    alloc: Global,
    tokens: &mut Cursor<'_>,
    levels: usize,
) -> Result<List<Decl>, ParseFault>
    ensures { Reads (reads levels (many spec.constant) tokens.old) result tokens.new }
{
    let mut found = List::new(alloc);
    'more: while tokens.sees(Symbol::Ident) {
        let x = constant(alloc, tokens, levels)?;
        found.push(x)?;
    }
    Ok(found)
}

fn named_type(alloc: Global, tokens: &mut Cursor<'_>, levels: usize) -> Result<Decl, ParseFault>
    ensures { Reads (reads levels spec.named_type tokens.old) result tokens.new }
{
    let name = ident_def(tokens)?;
    tokens.expect(Symbol::Equal)?;
    let node = nested_type(alloc, tokens, levels)?;
    tokens.expect(Symbol::Semicolon)?;
    Ok(Decl::NamedType { name, node })
}

fn named_types(
    alloc: Global,
    tokens: &mut Cursor<'_>,
    levels: usize,
) -> Result<List<Decl>, ParseFault>
    ensures { Reads (reads levels (expr.next_of s.KwType (many spec.named_type)) tokens.old) result tokens.new }
{
    tokens.expect(Symbol::KwType)?;
    let found = more_types(alloc, tokens, levels)?;
    Ok(found)
}

fn more_types(
    alloc: Global,
    tokens: &mut Cursor<'_>,
    levels: usize,
) -> Result<List<Decl>, ParseFault>
    ensures { Reads (reads levels (many spec.named_type) tokens.old) result tokens.new }
{
    let mut found = List::new(alloc);
    'more: while tokens.sees(Symbol::Ident) {
        let x = named_type(alloc, tokens, levels)?;
        found.push(x)?;
    }
    Ok(found)
}

fn variable_list(alloc: Global, tokens: &mut Cursor<'_>, levels: usize) -> Result<Decl, ParseFault>
    ensures { Reads (reads levels spec.variables tokens.old) result tokens.new }
{
    let names = ident_list(alloc, tokens)?;
    tokens.expect(Symbol::Colon)?;
    let node = nested_type(alloc, tokens, levels)?;
    tokens.expect(Symbol::Semicolon)?;
    Ok(Decl::Variables { names, node })
}

fn variable_lists(
    alloc: Global,
    tokens: &mut Cursor<'_>,
    levels: usize,
) -> Result<List<Decl>, ParseFault>
    ensures { Reads (reads levels (expr.next_of s.KwVar (many spec.variables)) tokens.old) result tokens.new }
{
    tokens.expect(Symbol::KwVar)?;
    let found = more_variables(alloc, tokens, levels)?;
    Ok(found)
}

fn more_variables(
    alloc: Global,
    tokens: &mut Cursor<'_>,
    levels: usize,
) -> Result<List<Decl>, ParseFault>
    ensures { Reads (reads levels (many spec.variables) tokens.old) result tokens.new }
{
    let mut found = List::new(alloc);
    'more: while tokens.sees(Symbol::Ident) {
        let x = variable_list(alloc, tokens, levels)?;
        found.push(x)?;
    }
    Ok(found)
}

fn block(alloc: Global, tokens: &mut Cursor<'_>, levels: usize) -> Result<List<Decl>, ParseFault>
    ensures { Reads (reads levels spec.block tokens.old) result tokens.new }
{
    if tokens.sees(Symbol::KwConst) {
        constants(alloc, tokens, levels)
    } else if tokens.sees(Symbol::KwType) {
        named_types(alloc, tokens, levels)
    } else {
        variable_lists(alloc, tokens, levels)
    }
}

/// Constants, types and variables, behind as many words of CONST, TYPE and VAR as there are.
pub fn blocks(
    alloc: Global,
    tokens: &mut Cursor<'_>,
    levels: usize,
) -> Result<List<Decl>, ParseFault>
    ensures { Reads (reads levels spec.blocks tokens.old) result tokens.new }
{
    let mut found = List::new(alloc);
    'more: while sees_block(tokens) {
        let x = block(alloc, tokens, levels)?;
        found.append(x)?;
    }
    Ok(found)
}

/// The heading of a procedure, behind its PROCEDURE.
pub fn heading(alloc: Global, tokens: &mut Cursor<'_>, levels: usize) -> Result<Heading, ParseFault>
    ensures { Reads (reads levels spec.heading tokens.old) result tokens.new }
{
    let receiver = receiver(tokens)?;
    let name = ident_def(tokens)?;
    let parameters = parameters(alloc, tokens, levels)?;
    Ok(Heading {
        receiver,
        name,
        parameters,
    })
}

/// A forward declaration, behind its PROCEDURE.
pub fn forward(alloc: Global, tokens: &mut Cursor<'_>, levels: usize) -> Result<Decl, ParseFault>
    ensures { Reads (reads levels spec.forward tokens.old) result tokens.new }
{
    tokens.expect(Symbol::Caret)?;
    let heading = heading(alloc, tokens, levels)?;
    Ok(Decl::Forward(heading))
}
