//! Expressions.

use crate::boxed::Boxed;
use crate::list::List;
use crate::mention::Mention;
use crate::pos::Pos;
use crate::spelling::Spelling;

/// A relation of two operands.
#[derive(Clone, Copy, PartialEq, Eq, Drop)]
pub enum Relation {
    Equal,
    NotEqual,
    Less,
    LessEqual,
    Greater,
    GreaterEqual,
    In,
    Is,
}

/// An operator between terms or factors.
#[derive(Clone, Copy, PartialEq, Eq, Drop)]
pub enum Operator {
    Add,
    Subtract,
    Or,
    Multiply,
    /// `/`
    Divide,
    /// `DIV`
    Quotient,
    /// `MOD`
    Remainder,
    And,
}

/// A sign before the first term.
#[derive(Clone, Copy, PartialEq, Eq, Drop)]
pub enum Sign {
    Plus,
    Minus,
}

/// An expression. `pos` is the operator's position at `Signed` and `Relate`, and else that of
/// the first symbol.
#[cycle(expr)]
#[derive(Drop)]
pub enum Expr {
    /// A designator, which may end in a call.
    Designator(Designator),
    /// An integer with its text, such as `12` or `0FH`.
    Int {
        pos: Pos,
        text: Spelling,
    },
    /// A character with its text, such as `41X`.
    Char {
        pos: Pos,
        text: Spelling,
    },
    /// A string, as the characters between its marks.
    Str {
        pos: Pos,
        text: Spelling,
    },
    Nil(Pos),
    Set {
        pos: Pos,
        elements: List<Element>,
    },
    /// An expression in round brackets.
    Paren {
        pos: Pos,
        inner: Boxed<Expr>,
    },
    /// `~` and its operand.
    Not {
        pos: Pos,
        operand: Boxed<Expr>,
    },
    /// A sign and the first term of a chain.
    Signed {
        sign: Sign,
        pos: Pos,
        operand: Boxed<Expr>,
    },
    /// A first operand, and operators with their operands, taken from the left: a chain of
    /// terms, or of factors. There is at least one operator.
    Chain {
        operand: Boxed<Expr>,
        tails: List<Tail>,
    },
    Relate {
        left: Boxed<Expr>,
        relation: Relation,
        pos: Pos,
        right: Boxed<Expr>,
    },
}

/// An operator of a chain where it stands, and its right operand.
#[cycle(expr)]
#[derive(Drop)]
pub struct Tail {
    pub operator: Operator,
    pub pos: Pos,
    pub operand: Expr,
}

/// An element of a set, or a label of a case: one value, or all from `low` to `high`.
#[cycle(expr)]
#[derive(Drop)]
pub struct Element {
    pub low: Expr,
    pub high: Option<Expr>,
}

/// A name and its selectors, in the order of the text.
#[cycle(expr)]
#[derive(Drop)]
pub struct Designator {
    pub ident: Mention,
    pub selectors: List<Selector>,
}

/// A selector. `pos` is that of its first symbol.
#[cycle(expr)]
#[derive(Drop)]
pub enum Selector {
    /// `.` and a name.
    Field { pos: Pos, ident: Mention },
    /// One index: `a[i, j]` has two of these, and the second's position is the comma's.
    Index { pos: Pos, index: Expr },
    /// `^`
    Deref(Pos),
    /// Round brackets, of a call or of a type guard.
    Call { pos: Pos, arguments: List<Expr> },
}
