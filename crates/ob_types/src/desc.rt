//! Descriptions of objects.

ghost use Rattle.std.specs.Prelude.{◌≡◌};

use crate::types::{Signature, TypeRef};
use crate::value::Value;
use ob_tree::{List, Mark, Name};

/// What an object is: one variant for each kind of description, with its parts.
#[derive(Drop)]
pub enum Desc {
    /// A constant.
    Const(Value),
    /// A variable.
    Var(Mark, TypeRef),
    /// A procedure at module level.
    Proc(Signature),
    /// A type that is equated to another.
    Alias(Mark, TypeRef),
    /// An array type: its number of elements, at least 1, and their type.
    Array(Mark, u32, TypeRef),
    /// An open array type, and the type of its elements.
    OpenArray(Mark, TypeRef),
    /// A pointer type, and what it points to.
    Pointer(Mark, TypeRef),
    /// A procedure type.
    ProcType(Mark, Signature),
    /// A record type.
    Record(RecordDesc),
}

/// A record type.
pub struct RecordDesc {
    pub mark: Mark,
    /// The type that it extends.
    pub base: Option<TypeRef>,
    /// Its own fields: of the module at hand in the order of their text, of an interface ascending by
    /// place, and at one place by name. Those with the mark `Hidden` stand in no text, and are there
    /// for a record of the module at hand alone.
    pub fields: List<Field>,
    /// The bound procedures that it introduces, ascending by number. Those with the mark `Hidden`
    /// stand in no text, and are there for a record of the module at hand alone.
    pub methods: List<Method>,
    /// Its words, its base's included: of the module at hand as they are laid out, where more than
    /// 1,048,576 are 1,048,577; of another as its file says.
    pub words: u32,
    /// The number of its bound procedures, its base's included.
    pub procedures: u32,
}

// By hand, as that of `TypeRef`; and so below.
impl Drop for RecordDesc {
    fn drop(self) {
        let RecordDesc {
            mark,
            base,
            fields,
            methods,
            words,
            procedures,
        } = self;
    }
}

impl RecordDesc {
    /// This record type with so many words and so many bound procedures.
    pub fn sized(self, words: u32, procedures: u32) -> RecordDesc
        ensures { result ≡ record { mark = self.mark; base = self.base; fields = self.fields; methods = self.methods; words = words; procedures = procedures } }
    {
        let RecordDesc {
            mark,
            base,
            fields,
            methods,
            words: _,
            procedures: _,
        } = self;
        RecordDesc {
            mark,
            base,
            fields,
            methods,
            words,
            procedures,
        }
    }
}

/// A field of a record.
#[derive(Drop)]
pub struct Field {
    pub name: Name,
    pub mark: Mark,
    /// Its first word, counted from the start of the record: of the module at hand as it is laid
    /// out, where more than 1,048,576 is 1,048,577; of another as its file says.
    pub place: u32,
    pub of: TypeRef,
}

/// What the receiver of a bound procedure is.
#[derive(Clone, Copy, PartialEq, Eq)]
pub enum Receiver {
    /// A VAR parameter of the record type.
    Record,
    /// A value parameter of a pointer to it.
    Pointer,
}

/// A bound procedure that a record introduces.
pub struct Method {
    pub name: Name,
    /// `Full` or `Hidden`.
    pub mark: Mark,
    /// Its place in the table of procedures of the record.
    pub number: u32,
    pub receiver: Receiver,
    /// Its parameters without the receiver, and its result.
    pub signature: Signature,
}

impl Drop for Method {
    fn drop(self) {
        let Method {
            name,
            mark,
            number,
            receiver,
            signature,
        } = self;
    }
}
