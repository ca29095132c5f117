//! Modules.

ghost use Rattle.std.specs.Prelude.{◌≡◌, [], IfOk};
ghost use Rattle.ob_parse_grammar.specs.Declarations.{«module»};
ghost use Rattle.ob_parse_grammar.specs.Grammar.{reads};
ghost use Rattle.ob_parse_expr.specs.Contract.{Reads};
ghost use Rattle.ob_parse_expr.specs.Left.{NamesFit};
ghost use Rattle.ob_parse_grammar.specs.Depth.{limit};
ghost use Rattle.ob_parse.specs.Parsed.{EndsOnce, Says};

use crate::imports::imports;
use crate::procedure::{body, declarations};
use ob_parse_expr::Cursor;
use ob_parse_grammar::ParseFault;
use ob_tree::{Module, Symbol, Token};
use std::alloc::Global;

fn nest_limit() -> usize
    ensures { result ≡ limit }
{
    200
}

fn whole(alloc: Global, tokens: &mut Cursor<'_>, levels: usize) -> Result<Module, ParseFault>
    ensures { Reads (reads levels «module» tokens.old) result tokens.new }
{
    tokens.expect(Symbol::KwModule)?;
    let name = tokens.ident()?;
    tokens.expect(Symbol::Semicolon)?;
    let imports = imports(alloc, tokens)?;
    let decls = declarations(alloc, tokens, levels)?;
    let body = body(alloc, tokens, levels)?;
    tokens.expect(Symbol::KwEnd)?;
    let closing = tokens.ident()?;
    tokens.expect(Symbol::Dot)?;
    tokens.expect(Symbol::End)?;
    Ok(Module {
        name,
        imports,
        decls,
        body,
        closing,
    })
}

/// The module that a front of the tokens that are left spells; its last token is the end of a
/// text. The faults are those of `parse`; where no token is left, the place is 0:0.
pub fn read_module(alloc: Global, tokens: &mut Cursor<'_>) -> Result<Module, ParseFault>
    ensures { Reads (reads limit «module» tokens.old) result tokens.new }
{
    whole(alloc, tokens, nest_limit())
}

/// The module that the tokens that are left spell, and then the end. The faults are those of
/// `parse`.
pub fn parse_from(alloc: Global, tokens: &mut Cursor<'_>) -> Result<Module, ParseFault>
    requires { EndsOnce tokens.old }
    ensures answer { Says result tokens.old }

    // Behind a module no token is left.
    ensures behind { IfOk result (λ m. tokens.new ≡ []) }
{
    read_module(alloc, tokens)
}

/// The module that the tokens spell, of which the last is the end of a text and no other is, and
/// each identifier has at most 64 characters; or why they spell none:
///
/// - Syntax, at the first token with which no module goes on.
/// - TooDeep, at the first token inside more than 200 phrases that nest: expressions, types,
///   sequences of statements, procedures, and `~` with its operand.
/// - Memory, where there was none.
pub fn parse(alloc: Global, tokens: &[Token<'_>]) -> Result<Module, ParseFault>
    requires ends { EndsOnce tokens.now }
    requires names { NamesFit tokens.now }
    ensures { Says result tokens.now }
{
    let mut left = Cursor::new(tokens);
    parse_from(alloc, &mut left)
}
