//! Parts of types and headings that no type is nested in.

ghost use Rattle.std.specs.Prelude.{◌≡◌};
ghost use Rattle.ob_parse_grammar.specs.Phrase.{maybe};
ghost use Rattle.ob_parse_grammar.specs.Types as spec;
ghost use Rattle.ob_parse_grammar.specs.Declarations as decl;
ghost use Rattle.ob_parse_grammar.specs.Grammar.{reads};
ghost use Rattle.ob_parse_expr.specs.Contract.{Reads};

use ob_parse_expr::{Cursor, qualident};
use ob_parse_grammar::ParseFault;
use ob_tree::{Qualident, Receiver, Symbol};

/// Whether VAR is written.
pub fn is_var(tokens: &mut Cursor<'_>) -> Result<bool, ParseFault>
    ensures { Reads (reads 0 spec.is_var tokens.old) result tokens.new }
{
    if tokens.sees(Symbol::KwVar) {
        tokens.expect(Symbol::KwVar)?;
        Ok(true)
    } else {
        Ok(false)
    }
}

/// The type of a result, where one is written.
pub fn result_type(tokens: &mut Cursor<'_>) -> Result<Option<Qualident>, ParseFault>
    ensures { Reads (reads 0 spec.result_type tokens.old) result tokens.new }
{
    if tokens.sees(Symbol::Colon) {
        tokens.expect(Symbol::Colon)?;
        let name = qualident(tokens)?;
        Ok(Some(name))
    } else {
        Ok(None)
    }
}

/// The base of a record, where one is written.
pub fn base(tokens: &mut Cursor<'_>) -> Result<Option<Qualident>, ParseFault>
    ensures { Reads (reads 0 (maybe spec.base) tokens.old) result tokens.new }
{
    if tokens.sees(Symbol::LeftRound) {
        tokens.expect(Symbol::LeftRound)?;
        let name = qualident(tokens)?;
        tokens.expect(Symbol::RightRound)?;
        Ok(Some(name))
    } else {
        Ok(None)
    }
}

fn some_receiver(tokens: &mut Cursor<'_>) -> Result<Receiver, ParseFault>
    ensures { Reads (reads 0 decl.receiver tokens.old) result tokens.new }
{
    tokens.expect(Symbol::LeftRound)?;
    let is_var = is_var(tokens)?;
    let ident = tokens.ident()?;
    tokens.expect(Symbol::Colon)?;
    let owner = tokens.ident()?;
    tokens.expect(Symbol::RightRound)?;
    Ok(Receiver {
        is_var,
        ident,
        owner,
    })
}

/// A receiver, where one is written.
pub fn receiver(tokens: &mut Cursor<'_>) -> Result<Option<Receiver>, ParseFault>
    ensures { Reads (reads 0 (maybe decl.receiver) tokens.old) result tokens.new }
{
    if tokens.sees(Symbol::LeftRound) {
        let written = some_receiver(tokens)?;
        Ok(Some(written))
    } else {
        Ok(None)
    }
}
