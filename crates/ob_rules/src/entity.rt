//! What a name stands for.

use crate::broken::Predeclared;
use ob_tree::{Name, Pos, QName};
use ob_types::{Receiver, Signature, TypeRef, Value, Variable};

/// What a declared name stands for.
#[derive(Drop)]
pub enum Entity {
    Constant(Value),
    TypeName(TypeRef),
    Variable(Variable, TypeRef),
    Procedure(QName, Signature),
    /// A procedure that is declared forward alone, so far.
    Forward(QName, Signature),
    /// An imported module, by its own name.
    Module(Name),
    Predeclared(Predeclared),
    /// REAL, LONGREAL, ENTIER or SIZE.
    LeftOut,
    /// Its declaration breaks a rule.
    Unsound,
}

/// A name that is declared, in the scope of that number: 0 is that of the predeclared names, 1 the
/// module's, and each scope in another has the next number.
#[derive(Drop)]
pub struct Known {
    pub name: Name,
    pub scope: u32,
    pub what: Entity,
}

/// A bound procedure of the module, with the place of its name. Its signature is there where its
/// declaration keeps all rules.
#[derive(Drop)]
pub struct Bound {
    pub owner: QName,
    pub name: Name,
    pub at: Pos,
    pub receiver: Receiver,
    pub signature: Option<Signature>,
}

/// A bound procedure that the text has further on: its receiver's type, whether the receiver is a
/// VAR parameter, and its name.
#[derive(Clone, Copy)]
pub struct Coming {
    pub owner: Name,
    pub is_var: bool,
    pub name: Name,
}

/// The receiver of the procedure at hand: its variable, and the record.
#[derive(Drop)]
pub struct Received {
    pub variable: Variable,
    pub owner: QName,
}
