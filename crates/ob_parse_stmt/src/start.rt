//! With which symbols statements start.

ghost use Rattle.std.specs.Prelude.{◌≡◌};
ghost use Rattle.ob_parse_grammar.specs.Phrase.{Statements, either};
ghost use Rattle.ob_parse_grammar.specs.Reading.{starts};
ghost use Rattle.ob_parse_grammar.specs.Statements as spec;
ghost use Rattle.ob_parse_grammar.specs.Grammar.{begins, first_of, read};
ghost use Rattle.ob_parse_expr.specs.Contract.{Reads};

use ob_parse_expr::Cursor;
use ob_parse_grammar::ParseFault;
use ob_tree::{List, Stmt, Symbol};
use std::alloc::Global;

fn sees_later_statement(tokens: &Cursor<'_>) -> bool
    ensures { result ≡ starts (begins (either spec.for_loop (either spec.endless_loop (either spec.exit_statement (either spec.return_statement spec.with_statement))))) tokens.now }
{
    tokens.sees(Symbol::KwFor)
        || tokens.sees(Symbol::KwLoop)
        || tokens.sees(Symbol::KwExit)
        || tokens.sees(Symbol::KwReturn)
        || tokens.sees(Symbol::KwWith)
}

/// Whether a statement that is not empty starts here.
pub fn sees_statement(tokens: &Cursor<'_>) -> bool
    ensures { result ≡ starts (begins spec.some_statement) tokens.now }
{
    tokens.sees(Symbol::Ident)
        || tokens.sees(Symbol::KwIf)
        || tokens.sees(Symbol::KwCase)
        || tokens.sees(Symbol::KwWhile)
        || tokens.sees(Symbol::KwRepeat)
        || sees_later_statement(tokens)
}

fn sees_statements(tokens: &Cursor<'_>) -> bool
    ensures { result ≡ starts (first_of Statements) tokens.now }
{
    sees_statement(tokens) || tokens.sees(Symbol::Semicolon)
}

/// The sequence of statements where no level is left for it: it is empty, or too deep.
pub fn no_statements(alloc: Global, tokens: &mut Cursor<'_>) -> Result<List<Stmt>, ParseFault>
    ensures { Reads (read 0 Statements tokens.old) result tokens.new }
{
    if sees_statements(tokens) {
        return Err(tokens.too_deep());
    }
    let mut empty = List::new(alloc);
    empty.push(Stmt::Empty)?;
    Ok(empty)
}
