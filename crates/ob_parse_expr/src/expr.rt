//! Designators and expressions, a function for each rule of the grammar. `levels` is how many
//! levels of nesting are left.
//!
//! Where nothing follows an operand, its `Result` is handed on whole: an expression that is taken out
//! of it and put into another is copied twice.

ghost use Rattle.std.specs.Prelude.{◌≡◌};
ghost use Rattle.ob_tree.specs.declared.symbol.Symbol.TheVariants as s;
ghost use Rattle.ob_parse_grammar.specs.Phrase.{AnExpr, Negated, both, many, nest};
ghost use Rattle.ob_parse_grammar.specs.Expressions as spec;
ghost use Rattle.ob_parse_grammar.specs.Grammar.{reads, read};
ghost use Rattle.ob_parse_expr.specs.Contract.{Adds, Reads};
ghost use Rattle.ob_parse_expr.specs.Chains.{chained, related, with_sign, unnamed, expr_behind};

use crate::cursor::Cursor;
use crate::plain::{
    chain, char, deref, field, int, nil, operator_of, relation_of, sign_of, string,
};
use ob_parse_grammar::ParseFault;
use ob_tree::{Boxed, Designator, Element, Expr, List, Selector, Symbol, Tail};
use std::alloc::Global;

// ---- selectors

#[inline(always)]
#[cycle(expr)]
fn further_index(
    alloc: Global,
    tokens: &mut Cursor<'_>,
    levels: usize,
) -> Result<Selector, ParseFault>
    ensures { Reads (reads levels spec.further_index tokens.old) result tokens.new }
{
    let pos = tokens.expect(Symbol::Comma)?;
    let index = nested_expr(alloc, tokens, levels)?;
    Ok(Selector::Index { pos, index })
}

#[cycle(expr)]
fn further_indexes(
    alloc: Global,
    tokens: &mut Cursor<'_>,
    levels: usize,
) -> Result<List<Selector>, ParseFault>
    ensures { Reads (reads levels (many spec.further_index) tokens.old) result tokens.new }
{
    let mut found = List::new(alloc);
    'more: while tokens.sees(Symbol::Comma) {
        let x = further_index(alloc, tokens, levels)?;
        found.push(x)?;
    }
    Ok(found)
}

/// Indexes in one pair of brackets, behind the selectors that were found before.
#[inline(never)]
#[cycle(expr)]
fn index(
    alloc: Global,
    tokens: &mut Cursor<'_>,
    levels: usize,
    found: &mut List<Selector>,
) -> Result<(), ParseFault>
    ensures { Adds (reads levels spec.index tokens.old) found.old result found.new tokens.new }
{
    let pos = tokens.expect(Symbol::LeftSquare)?;
    let index = nested_expr(alloc, tokens, levels)?;
    let further = further_indexes(alloc, tokens, levels)?;
    tokens.expect(Symbol::RightSquare)?;
    found.push(Selector::Index { pos, index })?;
    found.append(further)?;
    Ok(())
}

#[inline(always)]
#[cycle(expr)]
fn next_expr(alloc: Global, tokens: &mut Cursor<'_>, levels: usize) -> Result<Expr, ParseFault>
    ensures { Reads (reads levels (spec.next_of s.Comma (nest AnExpr)) tokens.old) result tokens.new }
{
    tokens.expect(Symbol::Comma)?;
    let x = nested_expr(alloc, tokens, levels)?;
    Ok(x)
}

/// Expressions with commas between; at least one.
#[inline(never)]
#[cycle(expr)]
pub fn exprs(
    alloc: Global,
    tokens: &mut Cursor<'_>,
    levels: usize,
) -> Result<List<Expr>, ParseFault>
    ensures { Reads (reads levels spec.exprs tokens.old) result tokens.new }
{
    let first = nested_expr(alloc, tokens, levels)?;
    let mut found = List::new(alloc);
    found.push(first)?;
    'more: while tokens.sees(Symbol::Comma) {
        let x = next_expr(alloc, tokens, levels)?;
        found.push(x)?;
    }
    Ok(found)
}

/// A call's brackets, behind the selectors that were found before.
#[inline(never)]
#[cycle(expr)]
fn call(
    alloc: Global,
    tokens: &mut Cursor<'_>,
    levels: usize,
    found: &mut List<Selector>,
) -> Result<(), ParseFault>
    ensures { Adds (reads levels spec.call tokens.old) found.old result found.new tokens.new }
{
    let pos = tokens.expect(Symbol::LeftRound)?;
    let arguments = if tokens.sees_expr() {
        exprs(alloc, tokens, levels)?
    } else {
        List::new(alloc)
    };
    tokens.expect(Symbol::RightRound)?;
    found.push(Selector::Call { pos, arguments })?;
    Ok(())
}

/// One selector, behind those that were found before.
#[inline(always)]
#[cycle(expr)]
fn selector(
    alloc: Global,
    tokens: &mut Cursor<'_>,
    levels: usize,
    found: &mut List<Selector>,
) -> Result<(), ParseFault>
    ensures { Adds (reads levels spec.selector tokens.old) found.old result found.new tokens.new }
{
    if tokens.sees(Symbol::Dot) {
        field(alloc, tokens, found)
    } else if tokens.sees(Symbol::LeftSquare) {
        index(alloc, tokens, levels, found)
    } else if tokens.sees(Symbol::Caret) {
        deref(tokens, found)
    } else {
        call(alloc, tokens, levels, found)
    }
}

#[inline(never)]
#[cycle(expr)]
fn selectors(
    alloc: Global,
    tokens: &mut Cursor<'_>,
    levels: usize,
) -> Result<List<Selector>, ParseFault>
    ensures { Reads (reads levels spec.selectors tokens.old) result tokens.new }
{
    let mut found = List::new(alloc);
    'more: while tokens.sees_selector() {
        selector(alloc, tokens, levels, &mut found)?;
    }
    Ok(found)
}

/// A name and its selectors, where so many levels are left; else the fault at the token at
/// fault.
#[inline(always)]
#[cycle(expr)]
pub fn designator(
    alloc: Global,
    tokens: &mut Cursor<'_>,
    levels: usize,
) -> Result<Designator, ParseFault>
    ensures { Reads (reads levels spec.designator tokens.old) result tokens.new }
{
    let ident = tokens.mention(alloc)?;
    if tokens.sees_selector() {
        let selectors = selectors(alloc, tokens, levels)?;
        Ok(Designator { ident, selectors })
    } else {
        Ok(Designator {
            ident,
            selectors: List::new(alloc),
        })
    }
}

// ---- factors

#[inline(never)]
#[cycle(expr)]
fn element(alloc: Global, tokens: &mut Cursor<'_>, levels: usize) -> Result<Element, ParseFault>
    ensures { Reads (reads levels spec.element tokens.old) result tokens.new }
{
    let low = nested_expr(alloc, tokens, levels)?;
    if tokens.sees(Symbol::DotDot) {
        tokens.expect(Symbol::DotDot)?;
        let high = nested_expr(alloc, tokens, levels)?;
        Ok(Element {
            low,
            high: Some(high),
        })
    } else {
        Ok(Element { low, high: None })
    }
}

#[inline(always)]
#[cycle(expr)]
fn next_element(
    alloc: Global,
    tokens: &mut Cursor<'_>,
    levels: usize,
) -> Result<Element, ParseFault>
    ensures { Reads (reads levels (spec.next_of s.Comma spec.element) tokens.old) result tokens.new }
{
    tokens.expect(Symbol::Comma)?;
    let x = element(alloc, tokens, levels)?;
    Ok(x)
}

/// Elements of a set, or labels of a case, with commas between; at least one.
#[cycle(expr)]
pub fn elements(
    alloc: Global,
    tokens: &mut Cursor<'_>,
    levels: usize,
) -> Result<List<Element>, ParseFault>
    ensures { Reads (reads levels spec.elements tokens.old) result tokens.new }
{
    let first = element(alloc, tokens, levels)?;
    let mut found = List::new(alloc);
    found.push(first)?;
    'more: while tokens.sees(Symbol::Comma) {
        let x = next_element(alloc, tokens, levels)?;
        found.push(x)?;
    }
    Ok(found)
}

#[inline(never)]
#[cycle(expr)]
fn set(alloc: Global, tokens: &mut Cursor<'_>, levels: usize) -> Result<Expr, ParseFault>
    ensures { Reads (reads levels spec.set tokens.old) result tokens.new }
{
    let pos = tokens.expect(Symbol::LeftCurly)?;
    let elements = if tokens.sees_expr() {
        elements(alloc, tokens, levels)?
    } else {
        List::new(alloc)
    };
    tokens.expect(Symbol::RightCurly)?;
    Ok(Expr::Set { pos, elements })
}

#[inline(never)]
#[cycle(expr)]
fn paren(alloc: Global, tokens: &mut Cursor<'_>, levels: usize) -> Result<Expr, ParseFault>
    ensures { Reads (reads levels spec.paren tokens.old) result tokens.new }
{
    let pos = tokens.expect(Symbol::LeftRound)?;
    let inner = nested_expr(alloc, tokens, levels)?;
    tokens.expect(Symbol::RightRound)?;
    let inner = Boxed::new(alloc, inner)?;
    Ok(Expr::Paren { pos, inner })
}

#[inline(always)]
#[cycle(expr)]
fn negation(alloc: Global, tokens: &mut Cursor<'_>, levels: usize) -> Result<Expr, ParseFault>
    ensures { Reads (reads levels spec.negated tokens.old) result tokens.new }
{
    let pos = tokens.expect(Symbol::Tilde)?;
    let operand = factor(alloc, tokens, levels)?;
    let operand = Boxed::new(alloc, operand)?;
    Ok(Expr::Not { pos, operand })
}

// `~` and what it negates take a level.
#[inline(never)]
#[cycle(expr)]
fn negated(alloc: Global, tokens: &mut Cursor<'_>, levels: usize) -> Result<Expr, ParseFault>
    ensures { Reads (read levels Negated tokens.old) result tokens.new }
{
    if levels == 0 {
        return Err(tokens.fault_at_negation());
    }
    negation(alloc, tokens, levels - 1)
}

/// A factor that is no designator and no integer.
#[inline(never)]
#[cycle(expr)]
fn unnamed(alloc: Global, tokens: &mut Cursor<'_>, levels: usize) -> Result<Expr, ParseFault>
    ensures { Reads (reads levels unnamed tokens.old) result tokens.new }
{
    if tokens.sees(Symbol::Char) {
        return char(alloc, tokens);
    }
    if tokens.sees(Symbol::Str) {
        return string(alloc, tokens);
    }
    if tokens.sees(Symbol::KwNil) {
        return nil(tokens);
    }
    if tokens.sees(Symbol::LeftCurly) {
        return set(alloc, tokens, levels);
    }
    if tokens.sees(Symbol::LeftRound) {
        return paren(alloc, tokens, levels);
    }
    negated(alloc, tokens, levels)
}

#[inline(never)]
#[cycle(expr)]
fn factor(alloc: Global, tokens: &mut Cursor<'_>, levels: usize) -> Result<Expr, ParseFault>
    ensures { Reads (reads levels spec.factor tokens.old) result tokens.new }
{
    if !tokens.sees(Symbol::Ident) {
        if tokens.sees(Symbol::Int) {
            return int(alloc, tokens);
        }
        return unnamed(alloc, tokens, levels);
    }
    let named = designator(alloc, tokens, levels)?;
    Ok(Expr::Designator(named))
}

// ---- chains

#[inline(always)]
#[cycle(expr)]
fn mul_tail(alloc: Global, tokens: &mut Cursor<'_>, levels: usize) -> Result<Tail, ParseFault>
    ensures { Reads (reads levels spec.mul_tail tokens.old) result tokens.new }
{
    let by = tokens.mul_op()?;
    let operand = factor(alloc, tokens, levels)?;
    Ok(Tail {
        operator: operator_of(by.symbol),
        pos: by.pos,
        operand,
    })
}

#[inline(never)]
#[cycle(expr)]
fn mul_tails(
    alloc: Global,
    tokens: &mut Cursor<'_>,
    levels: usize,
) -> Result<List<Tail>, ParseFault>
    ensures { Reads (reads levels (many spec.mul_tail) tokens.old) result tokens.new }
{
    let mut found = List::new(alloc);
    'more: while tokens.sees_mul_op() {
        let x = mul_tail(alloc, tokens, levels)?;
        found.push(x)?;
    }
    Ok(found)
}

/// A first factor, and the operators and factors behind it.
#[inline(never)]
#[cycle(expr)]
fn product(
    alloc: Global,
    tokens: &mut Cursor<'_>,
    levels: usize,
    first: Expr,
) -> Result<Expr, ParseFault>
    ensures { Reads (chained first (reads levels (many spec.mul_tail) tokens.old)) result tokens.new }
{
    let tails = mul_tails(alloc, tokens, levels)?;
    let whole = chain(alloc, first, tails)?;
    Ok(whole)
}

#[inline(always)]
#[cycle(expr)]
fn term(alloc: Global, tokens: &mut Cursor<'_>, levels: usize) -> Result<Expr, ParseFault>
    ensures { Reads (reads levels spec.term tokens.old) result tokens.new }
{
    let read = factor(alloc, tokens, levels);
    if tokens.sees_mul_op() {
        return product(alloc, tokens, levels, read?);
    }
    read
}

#[inline(never)]
#[cycle(expr)]
fn with_sign(alloc: Global, tokens: &mut Cursor<'_>, levels: usize) -> Result<Expr, ParseFault>
    ensures { Reads (reads levels with_sign tokens.old) result tokens.new }
{
    let by = tokens.sign()?;
    let operand = term(alloc, tokens, levels)?;
    let operand = Boxed::new(alloc, operand)?;
    Ok(Expr::Signed {
        sign: sign_of(by.symbol),
        pos: by.pos,
        operand,
    })
}

#[inline(always)]
#[cycle(expr)]
fn signed(alloc: Global, tokens: &mut Cursor<'_>, levels: usize) -> Result<Expr, ParseFault>
    ensures { Reads (reads levels spec.signed tokens.old) result tokens.new }
{
    if tokens.sees_sign() {
        return with_sign(alloc, tokens, levels);
    }
    term(alloc, tokens, levels)
}

#[inline(always)]
#[cycle(expr)]
fn add_tail(alloc: Global, tokens: &mut Cursor<'_>, levels: usize) -> Result<Tail, ParseFault>
    ensures { Reads (reads levels spec.add_tail tokens.old) result tokens.new }
{
    let by = tokens.add_op()?;
    let operand = term(alloc, tokens, levels)?;
    Ok(Tail {
        operator: operator_of(by.symbol),
        pos: by.pos,
        operand,
    })
}

#[inline(never)]
#[cycle(expr)]
fn add_tails(
    alloc: Global,
    tokens: &mut Cursor<'_>,
    levels: usize,
) -> Result<List<Tail>, ParseFault>
    ensures { Reads (reads levels (many spec.add_tail) tokens.old) result tokens.new }
{
    let mut found = List::new(alloc);
    'more: while tokens.sees_add_op() {
        let x = add_tail(alloc, tokens, levels)?;
        found.push(x)?;
    }
    Ok(found)
}

/// A first term, and the operators and terms behind it.
#[inline(never)]
#[cycle(expr)]
fn sum(
    alloc: Global,
    tokens: &mut Cursor<'_>,
    levels: usize,
    first: Expr,
) -> Result<Expr, ParseFault>
    ensures { Reads (chained first (reads levels (many spec.add_tail) tokens.old)) result tokens.new }
{
    let tails = add_tails(alloc, tokens, levels)?;
    let whole = chain(alloc, first, tails)?;
    Ok(whole)
}

#[inline(never)]
#[cycle(expr)]
fn simple(alloc: Global, tokens: &mut Cursor<'_>, levels: usize) -> Result<Expr, ParseFault>
    ensures { Reads (reads levels spec.simple tokens.old) result tokens.new }
{
    let read = signed(alloc, tokens, levels);
    if tokens.sees_add_op() {
        return sum(alloc, tokens, levels, read?);
    }
    read
}

/// A left operand, and the relation and the right operand behind it.
#[inline(never)]
#[cycle(expr)]
fn relate(
    alloc: Global,
    tokens: &mut Cursor<'_>,
    levels: usize,
    left: Expr,
) -> Result<Expr, ParseFault>
    ensures { Reads (related left (reads levels (both spec.relation spec.simple) tokens.old)) result tokens.new }
{
    let by = tokens.relation()?;
    let right = simple(alloc, tokens, levels)?;
    let left = Boxed::new(alloc, left)?;
    let right = Boxed::new(alloc, right)?;
    Ok(Expr::Relate {
        left,
        relation: relation_of(by.symbol),
        pos: by.pos,
        right,
    })
}

/// An expression that may begin with a sign.
#[inline(never)]
#[cycle(expr)]
fn expr(alloc: Global, tokens: &mut Cursor<'_>, levels: usize) -> Result<Expr, ParseFault>
    ensures { Reads (reads levels spec.expr tokens.old) result tokens.new }
{
    let left = simple(alloc, tokens, levels)?;
    if tokens.sees_relation() {
        relate(alloc, tokens, levels, left)
    } else {
        Ok(left)
    }
}

/// A first factor, and what stands behind it in its term.
#[inline(always)]
#[cycle(expr)]
fn term_behind(
    alloc: Global,
    tokens: &mut Cursor<'_>,
    levels: usize,
    first: Expr,
) -> Result<Expr, ParseFault>
    ensures { Reads (chained first (reads levels (many spec.mul_tail) tokens.old)) result tokens.new }
{
    if tokens.sees_mul_op() {
        return product(alloc, tokens, levels, first);
    }
    Ok(first)
}

/// A first term, and what stands behind it before a relation.
#[inline(always)]
#[cycle(expr)]
fn simple_behind(
    alloc: Global,
    tokens: &mut Cursor<'_>,
    levels: usize,
    first: Expr,
) -> Result<Expr, ParseFault>
    ensures { Reads (chained first (reads levels (many spec.add_tail) tokens.old)) result tokens.new }
{
    if tokens.sees_add_op() {
        return sum(alloc, tokens, levels, first);
    }
    Ok(first)
}

/// A first factor without a sign, and what stands behind it.
#[inline(never)]
#[cycle(expr)]
fn expr_behind(
    alloc: Global,
    tokens: &mut Cursor<'_>,
    levels: usize,
    first: Expr,
) -> Result<Expr, ParseFault>
    ensures { Reads (expr_behind levels first tokens.old) result tokens.new }
{
    let term = term_behind(alloc, tokens, levels, first)?;
    let left = simple_behind(alloc, tokens, levels, term)?;
    if tokens.sees_relation() {
        return relate(alloc, tokens, levels, left);
    }
    Ok(left)
}

/// An expression, which takes one of the levels that are left. A factor alone is handed on as it was
/// read.
#[inline(never)]
#[cycle(expr)]
pub fn nested_expr(
    alloc: Global,
    tokens: &mut Cursor<'_>,
    levels: usize,
) -> Result<Expr, ParseFault>
    ensures { Reads (read levels AnExpr tokens.old) result tokens.new }
{
    if levels == 0 {
        return Err(tokens.fault_at_expr());
    }
    if tokens.sees_sign() {
        return expr(alloc, tokens, levels - 1);
    }
    let read = factor(alloc, tokens, levels - 1);
    if tokens.sees_mul_op() || tokens.sees_add_op() {
        return expr_behind(alloc, tokens, levels - 1, read?);
    }
    if tokens.sees_relation() {
        return relate(alloc, tokens, levels - 1, read?);
    }
    read
}
