//! The import list.

ghost use Rattle.std.specs.Prelude.{◌≡◌};
ghost use Rattle.ob_tree.specs.declared.symbol.Symbol.TheVariants as s;
ghost use Rattle.ob_parse_grammar.specs.Phrase.{maybe};
ghost use Rattle.ob_parse_grammar.specs.Expressions as expr;
ghost use Rattle.ob_parse_grammar.specs.Declarations as spec;
ghost use Rattle.ob_parse_grammar.specs.Grammar.{reads};
ghost use Rattle.ob_parse_expr.specs.Contract.{Reads};

use ob_parse_expr::Cursor;
use ob_parse_grammar::ParseFault;
use ob_tree::{Ident, Import, List, Symbol};
use std::alloc::Global;

fn target(tokens: &mut Cursor<'_>) -> Result<Option<Ident>, ParseFault>
    ensures { Reads (reads 0 (maybe (expr.next_of s.Becomes expr.ident)) tokens.old) result tokens.new }
{
    if tokens.sees(Symbol::Becomes) {
        tokens.expect(Symbol::Becomes)?;
        let name = tokens.ident()?;
        Ok(Some(name))
    } else {
        Ok(None)
    }
}

fn next_import(tokens: &mut Cursor<'_>) -> Result<Import, ParseFault>
    ensures { Reads (reads 0 (expr.next_of s.Comma spec.import_item) tokens.old) result tokens.new }
{
    tokens.expect(Symbol::Comma)?;
    let ident = tokens.ident()?;
    let target = target(tokens)?;
    Ok(Import { ident, target })
}

fn import_items(alloc: Global, tokens: &mut Cursor<'_>) -> Result<List<Import>, ParseFault>
    ensures { Reads (reads 0 (expr.separated s.Comma spec.import_item) tokens.old) result tokens.new }
{
    let ident = tokens.ident()?;
    let target = target(tokens)?;
    let mut found = List::new(alloc);
    found.push(Import { ident, target })?;
    'more: while tokens.sees(Symbol::Comma) {
        let x = next_import(tokens)?;
        found.push(x)?;
    }
    Ok(found)
}

fn some_imports(alloc: Global, tokens: &mut Cursor<'_>) -> Result<List<Import>, ParseFault>
    ensures { Reads (reads 0 spec.imports tokens.old) result tokens.new }
{
    tokens.expect(Symbol::KwImport)?;
    let found = import_items(alloc, tokens)?;
    tokens.expect(Symbol::Semicolon)?;
    Ok(found)
}

/// What is imported; nothing where IMPORT is not written.
pub fn imports(alloc: Global, tokens: &mut Cursor<'_>) -> Result<List<Import>, ParseFault>
    ensures { Reads (reads 0 (expr.optional spec.imports) tokens.old) result tokens.new }
{
    if tokens.sees(Symbol::KwImport) {
        let found = some_imports(alloc, tokens)?;
        Ok(found)
    } else {
        Ok(List::new(alloc))
    }
}
