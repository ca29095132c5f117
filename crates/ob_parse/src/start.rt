//! What begins where the next token stands.

ghost use Rattle.std.specs.Prelude.{◌≡◌};
ghost use Rattle.ob_parse_grammar.specs.Phrase.{AType};
ghost use Rattle.ob_parse_grammar.specs.Reading.{starts};
ghost use Rattle.ob_parse_grammar.specs.Types as spec;
ghost use Rattle.ob_parse_grammar.specs.Declarations as decl;
ghost use Rattle.ob_parse_grammar.specs.Grammar.{begins, first_of, read};
ghost use Rattle.ob_parse_expr.specs.Contract.{FailsAs};

use ob_parse_expr::Cursor;
use ob_parse_grammar::ParseFault;
use ob_tree::Symbol;

fn sees_type(tokens: &Cursor<'_>) -> bool
    ensures { result ≡ starts (first_of AType) tokens.now }
{
    tokens.sees(Symbol::Ident)
        || tokens.sees(Symbol::KwArray)
        || tokens.sees(Symbol::KwRecord)
        || tokens.sees(Symbol::KwPointer)
        || tokens.sees(Symbol::KwProcedure)
}

/// Where no level is left for a type: TooDeep where one begins, else Syntax.
pub fn fault_at_type(tokens: &Cursor<'_>) -> ParseFault
    ensures { FailsAs result (read 0 AType tokens.now) }
{
    if sees_type(tokens) {
        tokens.too_deep()
    } else {
        tokens.wrong()
    }
}

/// Whether a section of parameters begins here.
pub fn sees_section(tokens: &Cursor<'_>) -> bool
    ensures { result ≡ starts (begins spec.sections) tokens.now }
{
    tokens.sees(Symbol::KwVar) || tokens.sees(Symbol::Ident)
}

/// Whether CONST, TYPE or VAR stands here.
pub fn sees_block(tokens: &Cursor<'_>) -> bool
    ensures { result ≡ starts (begins decl.block) tokens.now }
{
    tokens.sees(Symbol::KwConst) || tokens.sees(Symbol::KwType) || tokens.sees(Symbol::KwVar)
}
