//! Sequences of statements, and the statements that hold them. `levels` is the number of levels
//! that are left.

ghost use Rattle.std.specs.Prelude.{◌≡◌};
ghost use Rattle.ob_tree.specs.declared.symbol.Symbol.TheVariants as s;
ghost use Rattle.ob_parse_grammar.specs.Phrase.{Statements, many};
ghost use Rattle.ob_parse_grammar.specs.Expressions.{next_of, separated};
ghost use Rattle.ob_parse_grammar.specs.Statements as spec;
ghost use Rattle.ob_parse_grammar.specs.Grammar.{read, reads};
ghost use Rattle.ob_parse_expr.specs.Contract.{Puts, Reads};

use crate::plain::{exit_statement, guard, plain, return_statement, step};
use crate::start::{no_statements, sees_statement};
use ob_parse_expr::{Cursor, elements, nested_expr};
use ob_parse_grammar::ParseFault;
use ob_tree::{Boxed, Branch, Case, GuardedBranch, List, Stmt, Symbol};
use std::alloc::Global;

/// A sequence of statements, which is one level.
#[cycle(statements)]
pub fn nested_statements(
    alloc: Global,
    tokens: &mut Cursor<'_>,
    levels: usize,
) -> Result<List<Stmt>, ParseFault>
    ensures { Reads (read levels Statements tokens.old) result tokens.new }
{
    if levels == 0 {
        return no_statements(alloc, tokens);
    }
    statements(alloc, tokens, levels - 1)
}

/// Statements with `;` between.
#[inline(always)]
#[cycle(statements)]
fn statements(
    alloc: Global,
    tokens: &mut Cursor<'_>,
    levels: usize,
) -> Result<List<Stmt>, ParseFault>
    ensures { Reads (reads levels spec.statements tokens.old) result tokens.new }
{
    let mut found = List::new(alloc);
    statement(alloc, tokens, levels, &mut found)?;
    'more: while tokens.sees(Symbol::Semicolon) {
        next_statement(alloc, tokens, levels, &mut found)?;
    }
    Ok(found)
}

#[inline(always)]
#[cycle(statements)]
fn next_statement(
    alloc: Global,
    tokens: &mut Cursor<'_>,
    levels: usize,
    found: &mut List<Stmt>,
) -> Result<(), ParseFault>
    ensures { Puts (reads levels (next_of s.Semicolon spec.statement) tokens.old) found.old result found.new tokens.new }
{
    tokens.expect(Symbol::Semicolon)?;
    statement(alloc, tokens, levels, found)
}

/// A statement, which may be empty.
#[inline(always)]
#[cycle(statements)]
fn statement(
    alloc: Global,
    tokens: &mut Cursor<'_>,
    levels: usize,
    found: &mut List<Stmt>,
) -> Result<(), ParseFault>
    ensures { Puts (reads levels spec.statement tokens.old) found.old result found.new tokens.new }
{
    if sees_statement(tokens) {
        some_statement(alloc, tokens, levels, found)
    } else {
        found.push(Stmt::Empty)?;
        Ok(())
    }
}

#[cycle(statements)]
fn some_statement(
    alloc: Global,
    tokens: &mut Cursor<'_>,
    levels: usize,
    found: &mut List<Stmt>,
) -> Result<(), ParseFault>
    ensures { Puts (reads levels spec.some_statement tokens.old) found.old result found.new tokens.new }
{
    if tokens.sees(Symbol::Ident) {
        plain(alloc, tokens, levels, found)
    } else if tokens.sees(Symbol::KwIf) {
        choice(alloc, tokens, levels, found)
    } else if tokens.sees(Symbol::KwCase) {
        case_statement(alloc, tokens, levels, found)
    } else if tokens.sees(Symbol::KwWhile) {
        while_loop(alloc, tokens, levels, found)
    } else if tokens.sees(Symbol::KwRepeat) {
        repeat_loop(alloc, tokens, levels, found)
    } else if tokens.sees(Symbol::KwFor) {
        for_loop(alloc, tokens, levels, found)
    } else if tokens.sees(Symbol::KwLoop) {
        endless_loop(alloc, tokens, levels, found)
    } else if tokens.sees(Symbol::KwExit) {
        exit_statement(tokens, found)
    } else if tokens.sees(Symbol::KwReturn) {
        return_statement(alloc, tokens, levels, found)
    } else {
        with_statement(alloc, tokens, levels, found)
    }
}

/// `ELSE` and its statements, which may be left out.
#[cycle(statements)]
fn otherwise(
    alloc: Global,
    tokens: &mut Cursor<'_>,
    levels: usize,
) -> Result<Option<List<Stmt>>, ParseFault>
    ensures { Reads (reads levels spec.otherwise tokens.old) result tokens.new }
{
    if tokens.sees(Symbol::KwElse) {
        tokens.expect(Symbol::KwElse)?;
        let body = nested_statements(alloc, tokens, levels)?;
        Ok(Some(body))
    } else {
        Ok(None)
    }
}

/// A condition, `THEN` and its statements.
#[cycle(statements)]
fn branch(alloc: Global, tokens: &mut Cursor<'_>, levels: usize) -> Result<Branch, ParseFault>
    ensures { Reads (reads levels spec.branch tokens.old) result tokens.new }
{
    let test = nested_expr(alloc, tokens, levels)?;
    tokens.expect(Symbol::KwThen)?;
    let body = nested_statements(alloc, tokens, levels)?;
    Ok(Branch { test, body })
}

/// `ELSIF` and its branch.
#[cycle(statements)]
fn next_branch(alloc: Global, tokens: &mut Cursor<'_>, levels: usize) -> Result<Branch, ParseFault>
    ensures { Reads (reads levels (next_of s.KwElsif spec.branch) tokens.old) result tokens.new }
{
    tokens.expect(Symbol::KwElsif)?;
    let next = branch(alloc, tokens, levels)?;
    Ok(next)
}

/// The branches of each `ELSIF`.
#[cycle(statements)]
fn further_branches(
    alloc: Global,
    tokens: &mut Cursor<'_>,
    levels: usize,
) -> Result<List<Branch>, ParseFault>
    ensures { Reads (reads levels (many (next_of s.KwElsif spec.branch)) tokens.old) result tokens.new }
{
    let mut found = List::new(alloc);
    'more: while tokens.sees(Symbol::KwElsif) {
        found.push(next_branch(alloc, tokens, levels)?)?;
    }
    Ok(found)
}

/// `IF`
#[inline(never)]
#[cycle(statements)]
fn choice(
    alloc: Global,
    tokens: &mut Cursor<'_>,
    levels: usize,
    found: &mut List<Stmt>,
) -> Result<(), ParseFault>
    ensures { Puts (reads levels spec.choice tokens.old) found.old result found.new tokens.new }
{
    let pos = tokens.expect(Symbol::KwIf)?;
    let first = branch(alloc, tokens, levels)?;
    let further = further_branches(alloc, tokens, levels)?;
    let otherwise = otherwise(alloc, tokens, levels)?;
    tokens.expect(Symbol::KwEnd)?;
    let mut branches = List::new(alloc);
    branches.push(first)?;
    branches.append(further)?;
    found.push(Stmt::If {
        pos,
        branches,
        otherwise,
    })?;
    Ok(())
}

/// A case, which may be empty.
#[cycle(statements)]
fn case_branch(alloc: Global, tokens: &mut Cursor<'_>, levels: usize) -> Result<Case, ParseFault>
    ensures { Reads (reads levels spec.case_branch tokens.old) result tokens.new }
{
    if tokens.sees_expr() {
        let labels = elements(alloc, tokens, levels)?;
        tokens.expect(Symbol::Colon)?;
        let body = nested_statements(alloc, tokens, levels)?;
        Ok(Case { labels, body })
    } else {
        Ok(Case {
            labels: List::new(alloc),
            body: List::new(alloc),
        })
    }
}

/// `|` and a case.
#[cycle(statements)]
fn next_case(alloc: Global, tokens: &mut Cursor<'_>, levels: usize) -> Result<Case, ParseFault>
    ensures { Reads (reads levels (next_of s.Bar spec.case_branch) tokens.old) result tokens.new }
{
    tokens.expect(Symbol::Bar)?;
    let next = case_branch(alloc, tokens, levels)?;
    Ok(next)
}

/// Cases with `|` between.
#[cycle(statements)]
fn cases(alloc: Global, tokens: &mut Cursor<'_>, levels: usize) -> Result<List<Case>, ParseFault>
    ensures { Reads (reads levels (separated s.Bar spec.case_branch) tokens.old) result tokens.new }
{
    let mut found = List::new(alloc);
    found.push(case_branch(alloc, tokens, levels)?)?;
    'more: while tokens.sees(Symbol::Bar) {
        found.push(next_case(alloc, tokens, levels)?)?;
    }
    Ok(found)
}

/// `CASE`
#[inline(never)]
#[cycle(statements)]
fn case_statement(
    alloc: Global,
    tokens: &mut Cursor<'_>,
    levels: usize,
    found: &mut List<Stmt>,
) -> Result<(), ParseFault>
    ensures { Puts (reads levels spec.case_statement tokens.old) found.old result found.new tokens.new }
{
    let pos = tokens.expect(Symbol::KwCase)?;
    let value = Boxed::new(alloc, nested_expr(alloc, tokens, levels)?)?;
    tokens.expect(Symbol::KwOf)?;
    let cases = cases(alloc, tokens, levels)?;
    let otherwise = otherwise(alloc, tokens, levels)?;
    tokens.expect(Symbol::KwEnd)?;
    found.push(Stmt::Case {
        pos,
        value,
        cases,
        otherwise,
    })?;
    Ok(())
}

/// `WHILE`
#[inline(never)]
#[cycle(statements)]
fn while_loop(
    alloc: Global,
    tokens: &mut Cursor<'_>,
    levels: usize,
    found: &mut List<Stmt>,
) -> Result<(), ParseFault>
    ensures { Puts (reads levels spec.while_loop tokens.old) found.old result found.new tokens.new }
{
    let pos = tokens.expect(Symbol::KwWhile)?;
    let test = nested_expr(alloc, tokens, levels)?;
    tokens.expect(Symbol::KwDo)?;
    let body = nested_statements(alloc, tokens, levels)?;
    tokens.expect(Symbol::KwEnd)?;
    found.push(Stmt::While { pos, test, body })?;
    Ok(())
}

/// `REPEAT`
#[inline(never)]
#[cycle(statements)]
fn repeat_loop(
    alloc: Global,
    tokens: &mut Cursor<'_>,
    levels: usize,
    found: &mut List<Stmt>,
) -> Result<(), ParseFault>
    ensures { Puts (reads levels spec.repeat_loop tokens.old) found.old result found.new tokens.new }
{
    let pos = tokens.expect(Symbol::KwRepeat)?;
    let body = nested_statements(alloc, tokens, levels)?;
    tokens.expect(Symbol::KwUntil)?;
    let test = nested_expr(alloc, tokens, levels)?;
    found.push(Stmt::Repeat { pos, body, test })?;
    Ok(())
}

/// `FOR`
#[inline(never)]
#[cycle(statements)]
fn for_loop(
    alloc: Global,
    tokens: &mut Cursor<'_>,
    levels: usize,
    found: &mut List<Stmt>,
) -> Result<(), ParseFault>
    ensures { Puts (reads levels spec.for_loop tokens.old) found.old result found.new tokens.new }
{
    let pos = tokens.expect(Symbol::KwFor)?;
    let variable = tokens.mention(alloc)?;
    tokens.expect(Symbol::Becomes)?;
    let start = Boxed::new(alloc, nested_expr(alloc, tokens, levels)?)?;
    tokens.expect(Symbol::KwTo)?;
    let end = Boxed::new(alloc, nested_expr(alloc, tokens, levels)?)?;
    let step = step(alloc, tokens, levels)?;
    tokens.expect(Symbol::KwDo)?;
    let body = nested_statements(alloc, tokens, levels)?;
    tokens.expect(Symbol::KwEnd)?;
    found.push(Stmt::For {
        pos,
        variable,
        start,
        end,
        step,
        body,
    })?;
    Ok(())
}

/// `LOOP`
#[inline(never)]
#[cycle(statements)]
fn endless_loop(
    alloc: Global,
    tokens: &mut Cursor<'_>,
    levels: usize,
    found: &mut List<Stmt>,
) -> Result<(), ParseFault>
    ensures { Puts (reads levels spec.endless_loop tokens.old) found.old result found.new tokens.new }
{
    let pos = tokens.expect(Symbol::KwLoop)?;
    let body = nested_statements(alloc, tokens, levels)?;
    tokens.expect(Symbol::KwEnd)?;
    found.push(Stmt::Loop { pos, body })?;
    Ok(())
}

/// A guard, `DO` and its statements.
#[cycle(statements)]
fn guarded(
    alloc: Global,
    tokens: &mut Cursor<'_>,
    levels: usize,
) -> Result<GuardedBranch, ParseFault>
    ensures { Reads (reads levels spec.guarded tokens.old) result tokens.new }
{
    let guard = guard(tokens)?;
    tokens.expect(Symbol::KwDo)?;
    let body = nested_statements(alloc, tokens, levels)?;
    Ok(GuardedBranch { guard, body })
}

/// `|` and a guarded branch.
#[cycle(statements)]
fn next_guarded(
    alloc: Global,
    tokens: &mut Cursor<'_>,
    levels: usize,
) -> Result<GuardedBranch, ParseFault>
    ensures { Reads (reads levels (next_of s.Bar spec.guarded) tokens.old) result tokens.new }
{
    tokens.expect(Symbol::Bar)?;
    let next = guarded(alloc, tokens, levels)?;
    Ok(next)
}

/// Guarded branches with `|` between.
#[cycle(statements)]
fn guarded_branches(
    alloc: Global,
    tokens: &mut Cursor<'_>,
    levels: usize,
) -> Result<List<GuardedBranch>, ParseFault>
    ensures { Reads (reads levels (separated s.Bar spec.guarded) tokens.old) result tokens.new }
{
    let mut found = List::new(alloc);
    found.push(guarded(alloc, tokens, levels)?)?;
    'more: while tokens.sees(Symbol::Bar) {
        found.push(next_guarded(alloc, tokens, levels)?)?;
    }
    Ok(found)
}

/// `WITH`
#[inline(never)]
#[cycle(statements)]
fn with_statement(
    alloc: Global,
    tokens: &mut Cursor<'_>,
    levels: usize,
    found: &mut List<Stmt>,
) -> Result<(), ParseFault>
    ensures { Puts (reads levels spec.with_statement tokens.old) found.old result found.new tokens.new }
{
    let pos = tokens.expect(Symbol::KwWith)?;
    let branches = guarded_branches(alloc, tokens, levels)?;
    let otherwise = otherwise(alloc, tokens, levels)?;
    tokens.expect(Symbol::KwEnd)?;
    found.push(Stmt::With {
        pos,
        branches,
        otherwise,
    })?;
    Ok(())
}
