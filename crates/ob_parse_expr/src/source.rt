//! Where tokens come from.

ghost use Rattle.std.specs.Prelude.{◌≡◌};

use ob_scan::Scanner;
use ob_tree::Token;

/// Where tokens come from.
#[derive(Drop)]
pub enum Source<'a> {
    /// A list of tokens.
    Listed(&'a [Token<'a>]),
    /// A text, of which one token after the other is scanned.
    Scanned(Scanner<'a>),
}
