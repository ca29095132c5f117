//! Types, as they are written. `levels` is how many levels of nesting are left.

ghost use Rattle.std.specs.Prelude.{◌≡◌};
ghost use Rattle.ob_tree.specs.declared.symbol.Symbol.TheVariants as s;
ghost use Rattle.ob_parse_grammar.specs.Phrase.{AType, many};
ghost use Rattle.ob_parse_grammar.specs.Expressions as expr;
ghost use Rattle.ob_parse_grammar.specs.Types as spec;
ghost use Rattle.ob_parse_grammar.specs.Grammar.{reads, read};
ghost use Rattle.ob_parse_expr.specs.Contract.{Reads};

use crate::heading::{base, is_var, result_type};
use crate::start::{fault_at_type, sees_section};
use ob_parse_expr::{Cursor, exprs, ident_list, idents, qualident};
use ob_parse_grammar::ParseFault;
use ob_tree::{Boxed, FieldList, FormalPars, List, Section, Symbol, TypeNode};
use std::alloc::Global;

// ---- parameters

#[cycle(types)]
fn section(alloc: Global, tokens: &mut Cursor<'_>, levels: usize) -> Result<Section, ParseFault>
    ensures { Reads (reads levels spec.section tokens.old) result tokens.new }
{
    let is_var = is_var(tokens)?;
    let names = idents(alloc, tokens)?;
    tokens.expect(Symbol::Colon)?;
    let node = nested_type(alloc, tokens, levels)?;
    Ok(Section {
        is_var,
        names,
        node,
    })
}

#[cycle(types)]
fn next_section(
    alloc: Global,
    tokens: &mut Cursor<'_>,
    levels: usize,
) -> Result<Section, ParseFault>
    ensures { Reads (reads levels (expr.next_of s.Semicolon spec.section) tokens.old) result tokens.new }
{
    tokens.expect(Symbol::Semicolon)?;
    let x = section(alloc, tokens, levels)?;
    Ok(x)
}

#[cycle(types)]
fn further_sections(
    alloc: Global,
    tokens: &mut Cursor<'_>,
    levels: usize,
) -> Result<List<Section>, ParseFault>
    ensures { Reads (reads levels (many (expr.next_of s.Semicolon spec.section)) tokens.old) result tokens.new }
{
    let mut found = List::new(alloc);
    'more: while tokens.sees(Symbol::Semicolon) {
        let x = next_section(alloc, tokens, levels)?;
        found.push(x)?;
    }
    Ok(found)
}

#[cycle(types)]
fn sections(
    alloc: Global,
    tokens: &mut Cursor<'_>,
    levels: usize,
) -> Result<List<Section>, ParseFault>
    ensures { Reads (reads levels spec.sections tokens.old) result tokens.new }
{
    let first = section(alloc, tokens, levels)?;
    let further = further_sections(alloc, tokens, levels)?;
    let mut found = List::new(alloc);
    found.push(first)?;
    found.append(further)?;
    Ok(found)
}

#[cycle(types)]
fn formal_pars(
    alloc: Global,
    tokens: &mut Cursor<'_>,
    levels: usize,
) -> Result<FormalPars, ParseFault>
    ensures { Reads (reads levels spec.formal_pars tokens.old) result tokens.new }
{
    tokens.expect(Symbol::LeftRound)?;
    let sections = if sees_section(tokens) {
        sections(alloc, tokens, levels)?
    } else {
        List::new(alloc)
    };
    tokens.expect(Symbol::RightRound)?;
    let result_type = result_type(tokens)?;
    Ok(FormalPars {
        sections,
        result_type,
    })
}

/// The parameters and the result of a procedure; none where none are written.
#[cycle(types)]
pub fn parameters(
    alloc: Global,
    tokens: &mut Cursor<'_>,
    levels: usize,
) -> Result<FormalPars, ParseFault>
    ensures { Reads (reads levels spec.parameters tokens.old) result tokens.new }
{
    if tokens.sees(Symbol::LeftRound) {
        formal_pars(alloc, tokens, levels)
    } else {
        Ok(FormalPars {
            sections: List::new(alloc),
            result_type: None,
        })
    }
}

// ---- fields

#[cycle(types)]
fn fields(alloc: Global, tokens: &mut Cursor<'_>, levels: usize) -> Result<FieldList, ParseFault>
    ensures { Reads (reads levels spec.fields tokens.old) result tokens.new }
{
    let names = ident_list(alloc, tokens)?;
    tokens.expect(Symbol::Colon)?;
    let node = nested_type(alloc, tokens, levels)?;
    Ok(FieldList { names, node })
}

#[cycle(types)]
fn field_list(
    alloc: Global,
    tokens: &mut Cursor<'_>,
    levels: usize,
) -> Result<List<FieldList>, ParseFault>
    ensures { Reads (reads levels spec.field_list tokens.old) result tokens.new }
{
    let mut found = List::new(alloc);
    if tokens.sees(Symbol::Ident) {
        let x = fields(alloc, tokens, levels)?;
        found.push(x)?;
    }
    Ok(found)
}

#[cycle(types)]
fn next_field_list(
    alloc: Global,
    tokens: &mut Cursor<'_>,
    levels: usize,
) -> Result<List<FieldList>, ParseFault>
    ensures { Reads (reads levels (expr.next_of s.Semicolon spec.field_list) tokens.old) result tokens.new }
{
    tokens.expect(Symbol::Semicolon)?;
    let x = field_list(alloc, tokens, levels)?;
    Ok(x)
}

#[cycle(types)]
fn field_lists(
    alloc: Global,
    tokens: &mut Cursor<'_>,
    levels: usize,
) -> Result<List<FieldList>, ParseFault>
    ensures { Reads (reads levels spec.field_lists tokens.old) result tokens.new }
{
    let mut found = field_list(alloc, tokens, levels)?;
    'more: while tokens.sees(Symbol::Semicolon) {
        let x = next_field_list(alloc, tokens, levels)?;
        found.append(x)?;
    }
    Ok(found)
}

// ---- types

#[cycle(types)]
fn array(alloc: Global, tokens: &mut Cursor<'_>, levels: usize) -> Result<TypeNode, ParseFault>
    ensures { Reads (reads levels spec.array tokens.old) result tokens.new }
{
    let pos = tokens.expect(Symbol::KwArray)?;
    let lengths = if tokens.sees_expr() {
        exprs(alloc, tokens, levels)?
    } else {
        List::new(alloc)
    };
    tokens.expect(Symbol::KwOf)?;
    let element = nested_type(alloc, tokens, levels)?;
    let element = Boxed::new(alloc, element)?;
    Ok(TypeNode::Array {
        pos,
        lengths,
        element,
    })
}

#[cycle(types)]
fn record_type(
    alloc: Global,
    tokens: &mut Cursor<'_>,
    levels: usize,
) -> Result<TypeNode, ParseFault>
    ensures { Reads (reads levels spec.record_type tokens.old) result tokens.new }
{
    let pos = tokens.expect(Symbol::KwRecord)?;
    let base = base(tokens)?;
    let fields = field_lists(alloc, tokens, levels)?;
    tokens.expect(Symbol::KwEnd)?;
    Ok(TypeNode::Record { pos, base, fields })
}

#[cycle(types)]
fn pointer(alloc: Global, tokens: &mut Cursor<'_>, levels: usize) -> Result<TypeNode, ParseFault>
    ensures { Reads (reads levels spec.pointer tokens.old) result tokens.new }
{
    let pos = tokens.expect(Symbol::KwPointer)?;
    tokens.expect(Symbol::KwTo)?;
    let base = nested_type(alloc, tokens, levels)?;
    let base = Boxed::new(alloc, base)?;
    Ok(TypeNode::Pointer { pos, base })
}

#[cycle(types)]
fn procedure_type(
    alloc: Global,
    tokens: &mut Cursor<'_>,
    levels: usize,
) -> Result<TypeNode, ParseFault>
    ensures { Reads (reads levels spec.procedure_type tokens.old) result tokens.new }
{
    let pos = tokens.expect(Symbol::KwProcedure)?;
    let parameters = parameters(alloc, tokens, levels)?;
    Ok(TypeNode::Procedure { pos, parameters })
}

fn named(tokens: &mut Cursor<'_>) -> Result<TypeNode, ParseFault>
    ensures { Reads (reads 0 spec.named tokens.old) result tokens.new }
{
    let name = qualident(tokens)?;
    Ok(TypeNode::Named(name))
}

#[cycle(types)]
fn type_node(alloc: Global, tokens: &mut Cursor<'_>, levels: usize) -> Result<TypeNode, ParseFault>
    ensures { Reads (reads levels spec.type_node tokens.old) result tokens.new }
{
    if tokens.sees(Symbol::Ident) {
        named(tokens)
    } else if tokens.sees(Symbol::KwArray) {
        array(alloc, tokens, levels)
    } else if tokens.sees(Symbol::KwRecord) {
        record_type(alloc, tokens, levels)
    } else if tokens.sees(Symbol::KwPointer) {
        pointer(alloc, tokens, levels)
    } else {
        procedure_type(alloc, tokens, levels)
    }
}

/// A type, which takes one of the levels that are left.
#[cycle(types)]
pub fn nested_type(
    alloc: Global,
    tokens: &mut Cursor<'_>,
    levels: usize,
) -> Result<TypeNode, ParseFault>
    ensures { Reads (read levels AType tokens.old) result tokens.new }
{
    if levels == 0 {
        return Err(fault_at_type(tokens));
    }
    type_node(alloc, tokens, levels - 1)
}
