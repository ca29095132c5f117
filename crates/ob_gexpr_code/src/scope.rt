//! What the code of a procedure looks up.

ghost use Rattle.std.specs.Prelude.{◌≡◌, ◌≤◌, ◌^◌, ◌<◌, pos, IfOk};
ghost use Rattle.std.specs.Option.{option_map, option_copied};
ghost use Rattle.ob_scheme.specs.Context.{Context, words, is_own, variable_place, parameter_slot, local_slot, procedure_index, type_index, records, own_types};
ghost use Rattle.ob_scheme.specs.Descriptions.{elements_of, own_name, field_place, method_number};

use crate::fault::CodeFault;
use ob_tree::{Name, ObjName, QName};
use ob_types::TypeRef;

/// What the code of a procedure looks up, each number as an operand; `Beyond` where a number is no
/// operand.
pub trait Scope {
    /// The descriptions, the module, and the parameters and locals of the procedure at hand.
    ghost context: { Self → Context };

    /// The words of a type.
    fn words(&self, t: &TypeRef) -> Result<u32, CodeFault>
        ensures is { IfOk result (λ n. n ≡ words (context self.now) t.now) }
        ensures within { IfOk result (λ n. n < 2 ^ 31) };

    /// How many elements an array has; none for an open array.
    fn elements(&self, t: &TypeRef) -> Result<Option<i32>, CodeFault>
        ensures { IfOk result (λ n. n ≡ option_map pos (elements_of (context self.now).types t.now)) };

    /// Whether a module is the one at hand.
    fn is_own(&self, unit: &[u8]) -> bool
        ensures { result ≡ is_own (context self.now) unit.now };

    /// The place of a variable of the module among the module's words.
    fn variable_place(&self, name: &[u8]) -> i32
        ensures { result ≡ pos (variable_place (context self.now) name.now) };

    /// The first slot of a parameter.
    fn parameter_slot(&self, name: &[u8]) -> u32
        ensures is { result ≡ parameter_slot (context self.now) name.now }
        ensures within { result < 2 ^ 30 };

    /// The first word of a local variable, behind the slots.
    fn local_slot(&self, name: &[u8]) -> i32
        ensures { result ≡ pos (local_slot (context self.now) name.now) };

    /// The place of a field in the record type that declares it.
    fn field_place(&self, owner: &QName, name: &Name) -> Result<i32, CodeFault>
        ensures { IfOk result (λ n. n ≡ pos (field_place (context self.now).types owner.now name.now)) };

    /// The number of a bound procedure of the record type that introduces it.
    fn method_number(&self, owner: &QName, name: &Name) -> Result<i32, CodeFault>
        ensures { IfOk result (λ n. n ≡ pos (method_number (context self.now).types owner.now name.now)) };

    /// The index of a procedure of the module, the body's being 0.
    fn procedure_index(&self, name: &ObjName) -> i32
        ensures { result ≡ pos (procedure_index (context self.now) name.now) };

    /// The number of a record type of the module.
    fn type_index(&self, name: &ObjName) -> i32
        ensures { result ≡ pos (type_index (context self.now) name.now) };

    /// How many record types the module has.
    fn own_types(&self) -> u32
        ensures is { result ≡ own_types (context self.now) }
        ensures within { result < 2 ^ 30 };

    /// The name of the type that a type is equated to; none for a basic type.
    fn record_of<'a>(&'a self, t: &'a TypeRef) -> Option<&'a QName>
        ensures { option_copied result ≡ own_name (context self.now).types t.now };
}
