//! The next token.

ghost use Rattle.std.specs.Prelude.{◌≡◌};
ghost use Rattle.ob_scan.specs.Scanning.{Input};
ghost use Rattle.ob_parse_grammar.specs.Texts.{tokens_of};
ghost use Rattle.ob_parse_expr.specs.Left.{behind, left};
ghost use Rattle.ob_parse_expr.specs.declared.source.Source.TheVariants as source;

use crate::source::Source;
use ob_scan::Scanner;
use ob_tree::{Symbol, Token};

/// The token that comes next in the text; none where a fault comes.
#[inline(always)]
pub fn scanned<'a>(scanner: &mut Scanner<'a>) -> Option<Token<'a>>
    ensures { left result (source.Scanned scanner.new) ≡ tokens_of scanner.old }
{
    match scanner.next() {
        Ok(t) => Some(t),
        Err(_) => None,
    }
}

/// The token behind one of this symbol: none is left behind the end of a text.
#[inline(always)]
pub fn next_behind<'a>(source: &mut Source<'a>, symbol: Symbol) -> Option<Token<'a>>
    ensures { left result source.new ≡ behind symbol source.old }
{
    match source {
        Source::Listed(tokens) => match *tokens {
            [] => None,
            [t, rest @ ..] => {
                *tokens = rest;
                Some(*t)
            }
        },
        Source::Scanned(scanner) => {
            if symbol == Symbol::End {
                None
            } else {
                scanned(scanner)
            }
        }
    }
}

/// Puts the token behind one of this symbol in its place.
#[inline(never)]
pub fn go_on<'a>(next: &mut Option<Token<'a>>, source: &mut Source<'a>, symbol: Symbol)
    ensures { left next.new source.new ≡ behind symbol source.old }
{
    *next = next_behind(source, symbol);
}
