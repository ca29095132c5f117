//! Statements, and parts of statements, that no statement is nested in.

ghost use Rattle.std.specs.Prelude.{◌≡◌};
ghost use Rattle.ob_parse_grammar.specs.Statements as spec;
ghost use Rattle.ob_parse_grammar.specs.Grammar.{reads};
ghost use Rattle.ob_parse_expr.specs.Contract.{Puts, Reads};

use ob_parse_expr::{Cursor, designator, nested_expr, qualident};
use ob_parse_grammar::ParseFault;
use ob_tree::{Boxed, Expr, Guard, List, Stmt, Symbol};
use std::alloc::Global;

/// An assignment, or a designator alone, which is a call, behind the statements found before.
#[inline(never)]
pub fn plain(
    alloc: Global,
    tokens: &mut Cursor<'_>,
    levels: usize,
    found: &mut List<Stmt>,
) -> Result<(), ParseFault>
    ensures { Puts (reads levels spec.plain tokens.old) found.old result found.new tokens.new }
{
    let target = designator(alloc, tokens, levels)?;
    if tokens.sees(Symbol::Becomes) {
        let pos = tokens.expect(Symbol::Becomes)?;
        let value = nested_expr(alloc, tokens, levels)?;
        found.push(Stmt::Assign { target, pos, value })?;
        Ok(())
    } else {
        found.push(Stmt::Call(target))?;
        Ok(())
    }
}

/// `EXIT`, behind the statements found before.
#[inline(never)]
pub fn exit_statement(tokens: &mut Cursor<'_>, found: &mut List<Stmt>) -> Result<(), ParseFault>
    ensures { Puts (reads 0 spec.exit_statement tokens.old) found.old result found.new tokens.new }
{
    let pos = tokens.expect(Symbol::KwExit)?;
    found.push(Stmt::Exit(pos))?;
    Ok(())
}

/// `RETURN` and the value that may stand behind it, behind the statements found before.
#[inline(never)]
pub fn return_statement(
    alloc: Global,
    tokens: &mut Cursor<'_>,
    levels: usize,
    found: &mut List<Stmt>,
) -> Result<(), ParseFault>
    ensures { Puts (reads levels spec.return_statement tokens.old) found.old result found.new tokens.new }
{
    let pos = tokens.expect(Symbol::KwReturn)?;
    if tokens.sees_expr() {
        let value = nested_expr(alloc, tokens, levels)?;
        found.push(Stmt::Return {
            pos,
            value: Some(value),
        })?;
        Ok(())
    } else {
        found.push(Stmt::Return { pos, value: None })?;
        Ok(())
    }
}

/// The step of FOR, which may be left out.
pub fn step(
    alloc: Global,
    tokens: &mut Cursor<'_>,
    levels: usize,
) -> Result<Option<Boxed<Expr>>, ParseFault>
    ensures { Reads (reads levels spec.step tokens.old) result tokens.new }
{
    if tokens.sees(Symbol::KwBy) {
        tokens.expect(Symbol::KwBy)?;
        let step = Boxed::new(alloc, nested_expr(alloc, tokens, levels)?)?;
        Ok(Some(step))
    } else {
        Ok(None)
    }
}

/// A guard of WITH.
pub fn guard(tokens: &mut Cursor<'_>) -> Result<Guard, ParseFault>
    ensures { Reads (reads 0 spec.guard tokens.old) result tokens.new }
{
    let variable = qualident(tokens)?;
    tokens.expect(Symbol::Colon)?;
    let target = qualident(tokens)?;
    Ok(Guard { variable, target })
}
