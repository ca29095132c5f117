//! The tokens that are left.

ghost use Rattle.std.specs.Prelude.{◌≡◌, ◌+◌, ◌<◌, ◌^◌, length, IfOk, true};
ghost use Rattle.ob_parse_grammar.specs.Phrase.{same, AnExpr, Negated};
ghost use Rattle.ob_parse_grammar.specs.Reading.{Wrong, Deep, starts, take_word};
ghost use Rattle.ob_parse_grammar.specs.Expressions as spec;
ghost use Rattle.ob_parse_grammar.specs.Grammar.{reads, read, begins, first_of};
ghost use Rattle.ob_scan.specs.Scanning.{start_of};
ghost use Rattle.ob_parse_grammar.specs.Texts.{tokens_of};
ghost use Rattle.ob_parse_expr.specs.Left.{NamesFit, name_fits};
ghost use Rattle.ob_parse_expr.specs.Contract.{IsAt, IsFault, FailsAs, Gives, Reads, Takes};

use crate::behind::{go_on, next_behind, scanned};
use crate::source::Source;
use ob_parse_grammar::ParseFault;
use ob_scan::Scanner;
use ob_tree::{Ident, Mention, Name, Pos, Symbol, Token};
use std::alloc::Global;
use std::marker::Model;

/// Stands before a token, and goes on token by token, over a list of them or over a text. It is
/// seen as the tokens that are left.
#[derive(Drop)]
pub struct Cursor<'a> {
    next: Option<Token<'a>>,
    source: Source<'a>,
}

impl<'a> Model for Cursor<'a> {
    ghost use Rattle.std.specs.Prelude.{List};
    ghost use Rattle.ob_tree.specs.declared.token.Token.{Token};
    ghost use Rattle.ob_parse_expr.specs.Left.{left, NamesFit};

    ghost Value = { List Token };

    ghost view = { λ c. left c.next c.source };

    ghost invariant = { λ c. NamesFit (left c.next c.source) };
}

impl<'a> Cursor<'a> {
    /// Stands before the first of these tokens, of which each identifier has at most 64
    /// characters.
    pub fn new(tokens: &'a [Token<'a>]) -> Cursor<'a>
        requires { NamesFit tokens.now }
        ensures { result ≡ tokens.now }
    {
        match tokens {
            [] => Cursor {
                next: None,
                source: Source::Listed(tokens),
            },
            [t, rest @ ..] => Cursor {
                next: Some(*t),
                source: Source::Listed(rest),
            },
        }
    }

    /// Stands before the first token of this text of fewer than 2^32 - 1 bytes. Where the scanner
    /// finds a fault, no token is left.
    pub fn of_text(text: &'a [u8]) -> Cursor<'a>
        requires { length text.now + 1 < 2 ^ 32 }
        ensures { result ≡ tokens_of (start_of text.now) }
    {
        let mut scanner = Scanner::new(text);
        let next = scanned(&mut scanner);
        Cursor {
            next,
            source: Source::Scanned(scanner),
        }
    }

    /// Whether the next token is this symbol.
    #[inline(always)]
    pub fn sees(&self, symbol: Symbol) -> bool
        ensures { result ≡ starts (λ x. same x symbol) self.now }
    {
        match &self.next {
            None => false,
            Some(t) => t.symbol == symbol,
        }
    }

    /// The place of the next token, and 0:0 where none is left.
    pub fn pos(&self) -> Pos
        ensures { IsAt self.now result }
    {
        match &self.next {
            None => Pos { line: 0, col: 0 },
            Some(t) => t.pos,
        }
    }

    /// Syntax at the next token.
    pub fn wrong(&self) -> ParseFault
        ensures { IsFault Wrong self.now result }
    {
        ParseFault::Syntax { pos: self.pos() }
    }

    /// TooDeep at the next token.
    pub fn too_deep(&self) -> ParseFault
        ensures { IsFault Deep self.now result }
    {
        ParseFault::TooDeep { pos: self.pos() }
    }
}

impl<'a> Cursor<'a> {
    /// Takes the next token where it is this symbol; else Syntax at it.
    #[inline(always)]
    pub fn token(&mut self, symbol: Symbol) -> Result<Token<'a>, ParseFault>
        ensures value { Gives (take_word symbol self.old) result self.new }

        // An identifier has at most 64 characters.
        ensures fits { IfOk result (λ t. name_fits t ≡ true) }
    {
        match self.next {
            None => Err(self.wrong()),
            Some(t) => {
                if t.symbol == symbol {
                    go_on(&mut self.next, &mut self.source, t.symbol);
                    Ok(t)
                } else {
                    Err(ParseFault::Syntax { pos: t.pos })
                }
            }
        }
    }

    /// Takes the next token where it is this symbol, and gives its place; else Syntax at it.
    #[inline(never)]
    pub fn expect(&mut self, symbol: Symbol) -> Result<Pos, ParseFault>
        ensures { Takes symbol self.old result self.new }
    {
        match self.next {
            None => Err(self.wrong()),
            Some(t) => {
                if t.symbol == symbol {
                    self.next = next_behind(&mut self.source, t.symbol);
                    Ok(t.pos)
                } else {
                    Err(ParseFault::Syntax { pos: t.pos })
                }
            }
        }
    }

    /// Takes an identifier; else Syntax at the next token.
    #[inline(always)]
    pub fn ident(&mut self) -> Result<Ident, ParseFault>
        ensures { Reads (reads 0 spec.ident self.old) result self.new }
    {
        let t = self.token(Symbol::Ident)?;
        Ok(Ident {
            name: Name::new(t.text),
            pos: t.pos,
        })
    }

    /// Takes an identifier that is used; else Syntax at the next token, or Memory.
    #[inline(always)]
    pub fn mention(&mut self, alloc: Global) -> Result<Mention, ParseFault>
        ensures { Reads (reads 0 spec.ident self.old) result self.new }
    {
        let t = self.token(Symbol::Ident)?;
        let mention = Mention::new(alloc, t.text, t.pos)?;
        Ok(mention)
    }
}

// ---- sets of symbols

impl<'a> Cursor<'a> {
    /// Whether a selector begins here.
    pub fn sees_selector(&self) -> bool
        ensures { result ≡ starts (begins spec.selector) self.now }
    {
        self.sees(Symbol::Dot)
            || self.sees(Symbol::LeftSquare)
            || self.sees(Symbol::Caret)
            || self.sees(Symbol::LeftRound)
    }

    /// Whether an expression begins here.
    pub fn sees_expr(&self) -> bool
        ensures { result ≡ starts (first_of AnExpr) self.now }
    {
        match &self.next {
            None => false,
            Some(t) => begins_expr(t.symbol),
        }
    }

    /// Whether `*`, `/`, DIV, MOD or `&` stands here.
    pub fn sees_mul_op(&self) -> bool
        ensures { result ≡ starts (begins spec.mul_op) self.now }
    {
        self.sees(Symbol::Star)
            || self.sees(Symbol::Slash)
            || self.sees(Symbol::KwDiv)
            || self.sees(Symbol::KwMod)
            || self.sees(Symbol::Ampersand)
    }

    /// Whether `+`, `-` or OR stands here.
    pub fn sees_add_op(&self) -> bool
        ensures { result ≡ starts (begins spec.add_op) self.now }
    {
        self.sees(Symbol::Plus) || self.sees(Symbol::Minus) || self.sees(Symbol::KwOr)
    }

    /// Whether a sign stands here.
    pub fn sees_sign(&self) -> bool
        ensures { result ≡ starts (begins spec.sign_symbol) self.now }
    {
        self.sees(Symbol::Plus) || self.sees(Symbol::Minus)
    }

    /// Whether a relation stands here.
    pub fn sees_relation(&self) -> bool
        ensures { result ≡ starts (begins spec.relation) self.now }
    {
        self.sees(Symbol::Equal)
            || self.sees(Symbol::Hash)
            || self.sees(Symbol::Less)
            || self.sees(Symbol::LessEqual)
            || self.sees(Symbol::Greater)
            || self.sees(Symbol::GreaterEqual)
            || self.sees(Symbol::KwIn)
            || self.sees(Symbol::KwIs)
    }
}

impl<'a> Cursor<'a> {
    /// Takes `*`, `/`, DIV, MOD or `&`; else Syntax.
    pub fn mul_op(&mut self) -> Result<Token<'a>, ParseFault>
        ensures { Gives (reads 0 spec.mul_op self.old) result self.new }
    {
        if self.sees(Symbol::Star) {
            self.token(Symbol::Star)
        } else if self.sees(Symbol::Slash) {
            self.token(Symbol::Slash)
        } else if self.sees(Symbol::KwDiv) {
            self.token(Symbol::KwDiv)
        } else if self.sees(Symbol::KwMod) {
            self.token(Symbol::KwMod)
        } else {
            self.token(Symbol::Ampersand)
        }
    }

    /// Takes `+`, `-` or OR; else Syntax.
    pub fn add_op(&mut self) -> Result<Token<'a>, ParseFault>
        ensures { Gives (reads 0 spec.add_op self.old) result self.new }
    {
        if self.sees(Symbol::Plus) {
            self.token(Symbol::Plus)
        } else if self.sees(Symbol::Minus) {
            self.token(Symbol::Minus)
        } else {
            self.token(Symbol::KwOr)
        }
    }

    /// Takes a sign; else Syntax.
    pub fn sign(&mut self) -> Result<Token<'a>, ParseFault>
        ensures { Gives (reads 0 spec.sign_symbol self.old) result self.new }
    {
        if self.sees(Symbol::Plus) {
            self.token(Symbol::Plus)
        } else {
            self.token(Symbol::Minus)
        }
    }

    /// Takes a relation; else Syntax.
    pub fn relation(&mut self) -> Result<Token<'a>, ParseFault>
        ensures { Gives (reads 0 spec.relation self.old) result self.new }
    {
        if self.sees(Symbol::Equal) {
            self.token(Symbol::Equal)
        } else if self.sees(Symbol::Hash) {
            self.token(Symbol::Hash)
        } else if self.sees(Symbol::Less) {
            self.token(Symbol::Less)
        } else if self.sees(Symbol::LessEqual) {
            self.token(Symbol::LessEqual)
        } else if self.sees(Symbol::Greater) {
            self.token(Symbol::Greater)
        } else if self.sees(Symbol::GreaterEqual) {
            self.token(Symbol::GreaterEqual)
        } else if self.sees(Symbol::KwIn) {
            self.token(Symbol::KwIn)
        } else {
            self.token(Symbol::KwIs)
        }
    }
}

// ---- where no level is left

impl<'a> Cursor<'a> {
    /// Where no level is left for an expression: TooDeep where one begins here, else Syntax.
    pub fn fault_at_expr(&self) -> ParseFault
        ensures { FailsAs result (read 0 AnExpr self.now) }
    {
        if self.sees_expr() {
            self.too_deep()
        } else {
            self.wrong()
        }
    }

    /// Where no level is left for `~`: TooDeep where it stands here, else Syntax.
    pub fn fault_at_negation(&self) -> ParseFault
        ensures { FailsAs result (read 0 Negated self.now) }
    {
        if self.sees(Symbol::Tilde) {
            self.too_deep()
        } else {
            self.wrong()
        }
    }
}

fn begins_expr(symbol: Symbol) -> bool
    ensures { result ≡ first_of AnExpr symbol }
{
    matches!(
        symbol,
        Symbol::Ident
            | Symbol::Int
            | Symbol::Char
            | Symbol::Str
            | Symbol::KwNil
            | Symbol::LeftCurly
            | Symbol::LeftRound
            | Symbol::Tilde
            | Symbol::Plus
            | Symbol::Minus
    )
}
