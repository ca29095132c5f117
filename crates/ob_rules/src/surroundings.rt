//! What stands around a part of a text.

ghost use Rattle.std.specs.Prelude.{◌≡◌, ◌++◌, ◌∷◌, [], List, Option, is_some, OnOk};
ghost use Rattle.std.specs.Option.{option_copied};
ghost use Rattle.ob_types.specs.declared.types.TypeRef.{TypeRef as AType};
ghost use Rattle.ob_types.specs.declared.typed.Variable.{Variable as AVariable};
ghost use Rattle.ob_rules.specs.Names.{Around, map_of, find_name, found_in_scope, is_declared, is_among, bound_for};

use crate::entity::{Bound, Coming, Known, Received};
use ob_tree::{Name, QName};
use ob_types::{Desc, TypeRef, Types, Variable};
use std::alloc::AllocError;

/// What stands around a part of a text, as checkers look it up. Nothing but `guard` takes memory.
pub trait Surroundings: Types {
    /// What stands around.
    ghost around: { Self → Around };

    /// The module at hand.
    fn unit(&self) -> Name
        ensures { result ≡ (around self.now).unit };

    /// What an imported module says of a name. None where it says nothing.
    fn shown(&self, unit: &Name, name: &Name) -> Option<&Desc>
        ensures { option_copied result ≡ (around self.now).shown (record { «module» = unit.now; object = name.now }) };

    /// The latest declaration of a name. None where it is not declared.
    fn known(&self, name: &Name) -> Option<&Known>
        ensures { option_copied result ≡ find_name (around self.now).known name.now };

    /// Whether a name is declared in the innermost scope.
    fn is_known_in_scope(&self, name: &Name) -> bool
        ensures { result ≡ is_some (found_in_scope (around self.now) name.now) };

    /// Whether a name is declared in the procedure or module at hand.
    fn is_declared(&self, name: &Name) -> bool
        ensures { result ≡ is_declared (around self.now) name.now };

    /// Whether the scope declares a type of that name, earlier or later.
    fn declares_type(&self, name: &Name) -> bool
        ensures { result ≡ is_among name.now (around self.now).later_types };

    /// The number of the innermost scope.
    fn scope(&self) -> u32
        ensures { result ≡ (around self.now).scope };

    /// The number of the scope whose variables may be named.
    fn level(&self) -> u32
        ensures { result ≡ (around self.now).level };

    /// What the names of objects of this scope begin with, as `P/`.
    fn path(&self) -> &[u8]
        ensures { result.now ≡ (around self.now).path };

    /// The bound procedures that the text has further on.
    fn coming(&self) -> &[Coming]
        ensures { result.now ≡ (around self.now).coming };

    /// The bound procedure of that name that the module declares for the record, of which the
    /// module is not asked.
    fn bound_for(&self, owner: &QName, name: &Name) -> Option<&Bound>
        ensures { option_copied result ≡ bound_for (around self.now).bound owner.now name.now };

    /// The guards of WITH, the outermost first. A type is none where its guard breaks a rule.
    fn guards(&self) -> &[(Variable, Option<TypeRef>)]
        ensures { result.now ≡ (around self.now).guards };

    /// The receiver of the procedure at hand.
    fn receiver(&self) -> Option<&Received>
        ensures { option_copied result ≡ (around self.now).receiver };

    /// The result of the procedure at hand.
    fn result_type(&self) -> Option<&TypeRef>
        ensures { option_copied result ≡ (around self.now).result };

    /// Whether a LOOP of the procedure at hand stands around.
    fn in_loop(&self) -> bool
        ensures { result ≡ (around self.now).in_loop };

    /// From here on a LOOP stands around, or does not.
    fn set_in_loop(&mut self, in_loop: bool)
        ensures { around self.new ≡ record (around self.old) { in_loop = in_loop } };

    /// From here on the variable has one more guard, the innermost.
    fn guard(&mut self, variable: Variable, t: Option<TypeRef>) -> Result<(), AllocError>
        ensures { OnOk result (around self.new ≡ record (around self.old) { guards = (around self.old).guards ++ (variable, t) ∷ [] }) };

    /// Ends the innermost guard.
    fn unguard(&mut self)
        ensures { (guards : List (AVariable × Option AType)) (last : AVariable × Option AType) → (around self.old).guards ≡ guards ++ last ∷ [] → around self.new ≡ record (around self.old) { guards = guards } };

    /// Its types are those of what stands around.
    ghost all_types: { (here : Self) → Self.types here ≡ map_of (around here) };
}
