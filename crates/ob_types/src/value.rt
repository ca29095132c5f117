//! Values of constants.

use ob_tree::Text;

/// The value of a constant.
pub enum Value {
    Bool(bool),
    /// A character, 0X to 0FFX.
    Char(u8),
    /// An integer. Its type is the smallest that has it.
    Int(i32),
    /// A set: bit i stands for the element i.
    Set(u32),
    /// A string's characters, without an end mark. A string of one character is a `Char`, but in a
    /// checked tree where it serves as an array.
    Str(Text),
    Nil,
}

// By hand, as that of `TypeRef`.
impl Drop for Value {
    fn drop(self) {
        match self {
            Value::Bool(_) => {}
            Value::Char(_) => {}
            Value::Int(_) => {}
            Value::Set(_) => {}
            Value::Str(_) => {}
            Value::Nil => {}
        }
    }
}
