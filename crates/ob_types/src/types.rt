//! Types as they are named.

ghost use Rattle.std.specs.Prelude.{◌≡◌, ◌↔◌, Option, IsTrue};
ghost use Rattle.std.specs.Option.{option_copied};
ghost use Rattle.ob_tree.specs.declared.names.QName.{QName};
ghost use Rattle.ob_types.specs.declared.desc.Desc.{Desc};
ghost use Rattle.ob_types.specs.Maps.{IsFinite};

use crate::desc::Desc;
use ob_tree::{List, QName};

/// A basic type.
#[derive(Clone, Copy, PartialEq, Eq)]
pub enum Basic {
    Boolean,
    Char,
    /// Integers of 8 bits.
    ShortInt,
    /// Integers of 16 bits.
    Integer,
    /// Integers of 32 bits.
    LongInt,
    Set,
}

/// A type: a basic one, or the one that a name stands for.
pub enum TypeRef {
    Basic(Basic),
    Named(QName),
}

// By hand, here and where it says so below: so a crate above has one call where such a value goes,
// and proves no destructor of its parts.
impl Drop for TypeRef {
    fn drop(self) {
        match self {
            TypeRef::Basic(_) => {}
            TypeRef::Named(_) => {}
        }
    }
}

/// How a parameter is passed.
#[derive(Clone, Copy, PartialEq, Eq)]
pub enum Mode {
    Value,
    Var,
}

/// The parameters of a procedure in order, and its result, none for a proper procedure.
pub struct Signature {
    pub params: List<(Mode, TypeRef)>,
    pub result: Option<TypeRef>,
}

// By hand, as that of `TypeRef`.
impl Drop for Signature {
    fn drop(self) {
        let Signature { params, result } = self;
    }
}

impl Signature {
    /// Its parameters.
    pub fn into_params(self) -> List<(Mode, TypeRef)>
        ensures { result ≡ self.params }
    {
        let Signature { params, result: _ } = self;
        params
    }

    /// Its result.
    pub fn into_result(self) -> Option<TypeRef>
        ensures { result ≡ self.result }
    {
        let Signature {
            params: _,
            result: of,
        } = self;
        of
    }
}

/// A finite map from names to descriptions.
pub trait Types {
    /// The map: the description of each name that it holds.
    ghost types: { Self → QName → Option Desc };

    /// It holds finitely many names.
    ghost finite: { (map : Self) → IsFinite (types map) };

    /// The description of that name; none exactly where the map does not hold it. Takes no memory.
    fn desc_of(&self, name: &QName) -> Option<&Desc>
        ensures { option_copied result ≡ types self.now name.now };
}

impl TypeRef {
    /// Whether both are the same basic type or the same name. Takes no memory.
    ///
    /// Names that are equated to each other differ here.
    pub fn is_same(&self, other: &TypeRef) -> bool
        ensures { IsTrue result ↔ (self.now ≡ other.now) }
    {
        match (self, other) {
            (TypeRef::Basic(basic), TypeRef::Basic(another)) => *basic == *another,
            (TypeRef::Named(name), TypeRef::Named(another)) => name.is_same(another),
            _ => false,
        }
    }
}
