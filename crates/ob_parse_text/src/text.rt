//! A text is parsed as it is scanned. Where that fails it is scanned to its end, since a fault of
//! scanning comes before one of parsing.

ghost use Rattle.std.specs.Prelude.{◌+◌, ◌<◌, ◌^◌, length};
ghost use Rattle.ob_scan.specs.Scanning.{start_of};
ghost use Rattle.ob_parse_text.specs.Answers.{Answers, HasTokens};

use crate::fault::TextFault;
use ob_parse::read_module;
use ob_parse_expr::Cursor;
use ob_parse_grammar::ParseFault;
use ob_scan::{ScanFault, Scanner};
use ob_tree::{Module, Symbol};
use std::alloc::Global;

/// Scans a text to its end, and keeps nothing.
fn scan_through(text: &[u8]) -> Result<(), ScanFault>
    requires { length text.now + 1 < 2 ^ 32 }
    ensures { HasTokens (start_of text.now) result }
{
    let mut scanner = Scanner::new(text);
    'more: loop {
        let t = scanner.next()?;
        if t.symbol == Symbol::End {
            return Ok(());
        }
    }
}

/// The module that a text of fewer than 2^32 - 1 bytes spells. No token is kept. Else:
///
/// - Scan, exactly where scanning the text has this fault, also behind a fault of Parse.
/// - Parse, exactly where scanning has none, and parsing the tokens has this fault.
/// - Memory, where there was none.
pub fn parse_text(alloc: Global, text: &[u8]) -> Result<Module, TextFault>
    requires { length text.now + 1 < 2 ^ 32 }
    ensures { Answers (start_of text.now) result }
{
    let mut tokens = Cursor::of_text(text);
    match read_module(alloc, &mut tokens) {
        Ok(tree) => Ok(tree),
        Err(ParseFault::Memory) => Err(TextFault::Memory),
        Err(at_token) => match scan_through(text) {
            Ok(()) => Err(TextFault::Parse(at_token)),
            Err(ScanFault::Memory) => Err(TextFault::Memory),
            Err(fault) => Err(TextFault::Scan(fault)),
        },
    }
}
