//! Statements.

use crate::boxed::Boxed;
use crate::expr::{Designator, Element, Expr};
use crate::ident::Qualident;
use crate::list::List;
use crate::mention::Mention;
use crate::pos::Pos;

/// A statement. `pos` is that of `:=` at an assignment, and else that of the first symbol.
#[cycle(stmt)]
#[derive(Drop)]
pub enum Stmt {
    Empty,
    /// A designator alone: a call, with or without brackets.
    Call(Designator),
    Assign {
        target: Designator,
        pos: Pos,
        value: Expr,
    },
    /// The branches of IF and of each ELSIF.
    If {
        pos: Pos,
        branches: List<Branch>,
        otherwise: Option<List<Stmt>>,
    },
    Case {
        pos: Pos,
        value: Boxed<Expr>,
        cases: List<Case>,
        otherwise: Option<List<Stmt>>,
    },
    While {
        pos: Pos,
        test: Expr,
        body: List<Stmt>,
    },
    Repeat {
        pos: Pos,
        body: List<Stmt>,
        test: Expr,
    },
    For {
        pos: Pos,
        variable: Mention,
        start: Boxed<Expr>,
        end: Boxed<Expr>,
        step: Option<Boxed<Expr>>,
        body: List<Stmt>,
    },
    Loop {
        pos: Pos,
        body: List<Stmt>,
    },
    Exit(Pos),
    Return {
        pos: Pos,
        value: Option<Expr>,
    },
    With {
        pos: Pos,
        branches: List<GuardedBranch>,
        otherwise: Option<List<Stmt>>,
    },
}

/// A condition, and what is done where it holds.
#[cycle(stmt)]
#[derive(Drop)]
pub struct Branch {
    pub test: Expr,
    pub body: List<Stmt>,
}

/// Labels, and what is done for them. An empty case has neither.
#[cycle(stmt)]
#[derive(Drop)]
pub struct Case {
    pub labels: List<Element>,
    pub body: List<Stmt>,
}

/// A branch of WITH.
#[cycle(stmt)]
#[derive(Drop)]
pub struct GuardedBranch {
    pub guard: Guard,
    pub body: List<Stmt>,
}

/// A variable, and the type that it is tested for.
#[derive(Clone, Copy, PartialEq)]
pub struct Guard {
    pub variable: Qualident,
    pub target: Qualident,
}
