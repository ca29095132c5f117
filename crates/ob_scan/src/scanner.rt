//! The scanner.

ghost use Rattle.std.specs.Prelude.{◌≡◌, ◌+◌, ◌<◌, ◌≤◌, ◌^◌, length, take, drop, IfOk};
ghost use Rattle.ob_tree.specs.declared.symbol.Symbol.TheVariants as s;
ghost use Rattle.ob_scan.specs.Scanning.{step, start_of, lexeme_of, further, HasRoom, Steps, Scans};

use crate::bytes::{is_digit, is_letter, is_quote};
use crate::fault::ScanFault;
use crate::gap::skip;
use crate::symbols::{mark_at, number_at, string_at, word_at};
use ob_tree::{List, Pos, Symbol, Token};
use std::alloc::Global;
use std::marker::Model;

/// A scanner stands somewhere in a text and gives one token after the other.
#[derive(Drop)]
pub struct Scanner<'a> {
    rest: &'a [u8],
    pos: Pos,
}

impl<'a> Model for Scanner<'a> {
    ghost use Rattle.ob_scan.specs.Scanning.{Input, HasRoom};

    ghost Value = { Input };

    ghost view = { λ c. record { text = c.rest.now; pos = c.pos } };

    ghost invariant = { λ c. HasRoom c.pos c.rest.now };
}

impl<'a> Scanner<'a> {
    /// Stands at the front of a text of fewer than 2^32 - 1 bytes.
    pub fn new(text: &'a [u8]) -> Scanner<'a>
        requires { length text.now + 1 < 2 ^ 32 }
        ensures { result ≡ start_of text.now }
    {
        Scanner {
            rest: text,
            pos: Pos { line: 1, col: 1 },
        }
    }

    // Goes past the token that so many bytes at the front of this text are.
    #[inline(always)]
    fn pass(&mut self, text: &'a [u8], pos: Pos, n: usize, symbol: Symbol) -> Token<'a>
        requires within { n ≤ length text.now }
        requires room { HasRoom pos text.now }
        ensures token { lexeme_of result ≡ record { symbol = symbol; text = take n text.now; pos = pos } }
        ensures behind { self.new ≡ record { text = drop n text.now; pos = further pos n } }
    {
        self.rest = &text[n..];
        self.pos = Pos {
            line: pos.line,
            col: pos.col + n as u32,
        };
        Token {
            symbol,
            text: &text[..n],
            pos,
        }
    }

    /// The next token, which borrows the text, or the first fault. After the end of the text it
    /// is the end again, and after a fault that fault again. It takes no memory, and its fault is
    /// never Memory.
    #[inline(always)]
    pub fn next(&mut self) -> Result<Token<'a>, ScanFault>
        ensures step { Steps (step self.old) self.old result self.new }

        // Each token but the end takes a byte.
        ensures less { IfOk result (λ t. (t.symbol ≡ s.End → ⊥) → length self.new.text < length self.old.text) }
    {
        let (at, pos) = skip(self.rest, self.pos)?;
        let text = &self.rest[at..];
        if text.is_empty() {
            self.rest = text;
            self.pos = pos;
            return Ok(Token {
                symbol: Symbol::End,
                text,
                pos,
            });
        }
        let first = text[0];
        if is_letter(first) {
            let (n, symbol) = word_at(text, pos)?;
            Ok(self.pass(text, pos, n, symbol))
        } else if is_digit(first) {
            let (n, symbol) = number_at(text, pos)?;
            Ok(self.pass(text, pos, n, symbol))
        } else if is_quote(first) {
            let (n, symbol) = string_at(text, pos)?;
            Ok(self.pass(text, pos, n, symbol))
        } else {
            let (n, symbol) = mark_at(text, pos)?;
            Ok(self.pass(text, pos, n, symbol))
        }
    }
}

/// The tokens of a text of fewer than 2^32 - 1 bytes, of which the last is its end, each with the
/// place of its first byte; or the first fault in the text:
///
/// - Symbol, where a symbol begins that the vocabulary does not have; an unfinished string or
///   comment is one at its start.
/// - Real, where decimal digits stand before a dot that no second dot follows.
/// - Limit, where an identifier of more than 64 characters begins.
/// - Memory, where there was none.
#[tactic(auto, using(crate::proofs::Leads::scans_all, crate::proofs::Leads::scans_fault))]
pub fn scan<'a>(alloc: Global, text: &'a [u8]) -> Result<List<Token<'a>>, ScanFault>
    requires { length text.now + 1 < 2 ^ 32 }
    ensures { Scans (start_of text.now) result }
{
    let mut scanner = Scanner::new(text);
    let mut found = List::new(alloc);
    'more: loop {
        let t = scanner.next()?;
        found.push(t)?;
        if t.symbol == Symbol::End {
            return Ok(found);
        }
    }
}
