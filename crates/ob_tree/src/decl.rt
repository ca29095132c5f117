//! Declarations and modules.

use crate::expr::Expr;
use crate::ident::{Ident, IdentDef, Import};
use crate::list::List;
use crate::stmt::Stmt;
use crate::type_node::{FormalPars, TypeNode};

/// A receiver: `owner` is the name of its type.
#[derive(Clone, Copy, PartialEq)]
pub struct Receiver {
    pub is_var: bool,
    pub ident: Ident,
    pub owner: Ident,
}

/// The heading of a procedure.
#[derive(Drop)]
pub struct Heading {
    pub receiver: Option<Receiver>,
    pub name: IdentDef,
    pub parameters: FormalPars,
}

/// A declaration. Those of one sequence stand in the order of the text, whatever words of
/// CONST, TYPE and VAR are between them.
#[derive(Drop)]
pub enum Decl {
    Constant {
        name: IdentDef,
        value: Expr,
    },
    NamedType {
        name: IdentDef,
        node: TypeNode,
    },
    /// Variables of one list.
    Variables {
        names: List<IdentDef>,
        node: TypeNode,
    },
    /// A procedure. Without BEGIN its body is empty. `closing` is the name behind END.
    Procedure {
        heading: Heading,
        decls: List<Decl>,
        body: List<Stmt>,
        closing: Ident,
    },
    /// A forward declaration.
    Forward(Heading),
}

/// A module. Without BEGIN its body is empty. `closing` is the name behind END.
#[derive(Drop)]
pub struct Module {
    pub name: Ident,
    pub imports: List<Import>,
    pub decls: List<Decl>,
    pub body: List<Stmt>,
    pub closing: Ident,
}
