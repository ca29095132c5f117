//! Where the bodies of a checked module are judged: what is known there is as the module has it.
//!
//! Constant expressions come to constants.
#![tactic(auto)]

ghost use Rattle.law_body_context.specs.Laws.{BodiesJudged, ImportsAreOthers, HiddenStand};
ghost use Rattle.law_body_context.specs.ConstantLaws.{ConstantsStand, BodiesStand};

/// A law, with nothing to run. The bodies of the procedures of a checked module, and its own body, are
/// judged in surroundings (`specs/Judged.antt`: `StandsAround`) where each known variable that may be
/// named is one of the module, or one of the procedure at hand or its parameters; each known procedure
/// is one of the module, of that signature; one that is known by a forward declaration alone is one of
/// the module too, of a signature that matches; and each type is one that the module declared before
/// or an imported module shows. (For forward declarations the bases of pointers that are shown have to
/// be shown too: a receiver that points to nothing known is no error, and what is named by it is
/// lost.) Each type that is known there is the module's by name and description,
/// perhaps before procedures are bound to it, where the module's types differ in name; and so where
/// the heading of a bound procedure names the type of its receiver, which is of the record that the
/// procedure is bound to. No guard stands around a body, and its result is the procedure's. The module
/// imports others than itself, and its constant expressions come to constants.
pub fn bodies_are_known()
    ensures bodies { BodiesJudged }
    ensures imports { ImportsAreOthers }
{}

/// A law, with nothing to run. The variables that the FOR and CASE of a text keep are among those of
/// the procedure that it is judged to.
pub fn hidden_are_kept()
    ensures { HiddenStand }
{}

/// A law, with nothing to run. Anywhere in a module whose strings are of characters, and whose imports
/// show constants and lengths of arrays that are in range, a constant expression comes to a constant:
/// an integer of LONGINT, a character, a set of 32 elements, or another. So each body of a checked
/// module is judged where what is known is as the module has it (`law_body_context`), its constants are
/// constants, and its arrays have lengths.
pub fn constants_are()
    ensures constants { ConstantsStand }
    ensures bodies { BodiesStand }
{}
