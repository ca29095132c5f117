//! Types, as they are written.

use crate::boxed::Boxed;
use crate::expr::Expr;
use crate::ident::{Ident, IdentDef, Qualident};
use crate::list::List;
use crate::pos::Pos;

/// A type. Its position is that of its first symbol.
#[cycle(type_node)]
#[derive(Drop)]
pub enum TypeNode {
    Named(Qualident),
    /// `ARRAY a, b OF T` has both lengths. There are none in an open array.
    Array {
        pos: Pos,
        lengths: List<Expr>,
        element: Boxed<TypeNode>,
    },
    Record {
        pos: Pos,
        base: Option<Qualident>,
        fields: List<FieldList>,
    },
    Pointer {
        pos: Pos,
        base: Boxed<TypeNode>,
    },
    Procedure {
        pos: Pos,
        parameters: FormalPars,
    },
}

/// Fields of one type. An empty field list is not in the tree.
#[cycle(type_node)]
#[derive(Drop)]
pub struct FieldList {
    pub names: List<IdentDef>,
    pub node: TypeNode,
}

/// Parameters and the type of the result. Where no list of parameters is written, it is as
/// if `()` were.
#[cycle(type_node)]
#[derive(Drop)]
pub struct FormalPars {
    pub sections: List<Section>,
    pub result_type: Option<Qualident>,
}

/// Parameters of one type, all by value or all by variable.
#[cycle(type_node)]
#[derive(Drop)]
pub struct Section {
    pub is_var: bool,
    pub names: List<Ident>,
    pub node: TypeNode,
}
