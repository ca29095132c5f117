//! What a designator means.

ghost use Rattle.std.specs.Prelude.{◌≡◌, Some};

use crate::broken::Predeclared;
use crate::values::{Place, Valued};
use ob_tree::{Pos, QName};
use ob_types::{Method, OutProcedure, Signature, TypeRef, Value, Width};
use ob_types_trees::{ExprTree, StmtTree};

/// A bound procedure that is selected.
pub struct Chosen {
    /// The variable that it is selected of.
    pub receiver: Place,
    /// The first symbol of the designator.
    pub start: Pos,
    /// What the variable points to, if it is a pointer. It is the receiver of a call where that is
    /// a record.
    pub pointed: Option<TypeRef>,
    /// The record that the procedure is looked for in.
    pub owner: QName,
    /// The record that introduces it.
    pub introduced: QName,
    pub method: Method,
    /// Of a super call, the base that it begins at.
    pub base: Option<QName>,
}

// By hand, as that of `Place`.
impl Drop for Chosen {
    fn drop(self) {
        let Chosen {
            receiver,
            start,
            pointed,
            owner,
            introduced,
            method,
            base,
        } = self;
    }
}

impl Chosen {
    /// The super call of it: the procedure that the record `first` introduces, as a call finds it
    /// that begins at the base `from`.
    pub fn begun_at(self, first: QName, procedure: Method, from: QName) -> Chosen
        ensures { result ≡ record { receiver = self.receiver; start = self.start; pointed = self.pointed; owner = self.owner; introduced = first; method = procedure; base = Some from } }
    {
        let Chosen {
            receiver,
            start,
            pointed,
            owner,
            introduced,
            method,
            base,
        } = self;
        Chosen {
            receiver,
            start,
            pointed,
            owner,
            introduced: first,
            method: procedure,
            base: Some(from),
        }
    }

    /// Its receiver, what that points to, and the record that the procedure is looked for in.
    pub fn into_receiver(self) -> (Place, Option<TypeRef>, QName)
        ensures { result ≡ (self.receiver, self.pointed, self.owner) }
    {
        let Chosen {
            receiver,
            start,
            pointed,
            owner,
            introduced,
            method,
            base,
        } = self;
        (receiver, pointed, owner)
    }
}

/// What a designator comes to.
#[derive(Drop)]
pub enum Meant {
    Place(Place),
    Constant(Value),
    Procedure(QName, Signature),
    Bound(Chosen),
    Out(OutProcedure),
    Predeclared(Predeclared),
    Call(Valued),
    /// A call of a predeclared procedure without a result.
    Statement(StmtTree),
}

/// Where a designator stands: a call there has a result, has none, or is not asked for one.
#[derive(Clone, Copy, PartialEq, Eq)]
pub enum Where {
    InExpression,
    AsStatement,
    Elsewhere,
}

/// What is asked of a parameter of a predeclared procedure: a value, a variable that is changed, or
/// a constant.
#[derive(Clone, Copy, PartialEq, Eq)]
pub enum Asked {
    Value,
    Changed,
    Constant,
}

/// What the labels of a CASE are to be: characters, or integers of a type that the value's type
/// includes.
#[derive(Clone, Copy, PartialEq, Eq)]
pub enum Selects {
    Characters,
    Integers(Width),
}

/// An element of a set: where it stands, its node, and the set that it is if it is constant.
#[derive(Drop)]
pub struct ElementOf {
    pub at: Pos,
    pub node: ExprTree,
    pub constant: Option<Value>,
}
