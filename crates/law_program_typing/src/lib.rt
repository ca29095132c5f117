//! Bound procedures are introduced once.
//!
//! Programs whose bodies are well typed keep the rules that their code rests on.
#![tactic(auto)]

ghost use Rattle.law_program_typing.specs.Laws.{IntroducedOnce};
ghost use Rattle.law_program_typing.specs.Accepted.{AcceptedIsWellTyped};
ghost use Rattle.law_program_typing.specs.Kept.{WellTypedKeeps};

/// A law, with nothing to run. A procedure that is bound to a record type of a module under a name
/// that one of its bases has is a redefinition, and never an introduction: so in a program whose
/// modules were each judged over interfaces of the modules before it, of a record type and one that
/// it extends, one alone introduces a bound procedure of a name, as far as a module knows both. A
/// base is bound to before its extensions, since types are made in their order.
pub fn introduced_once()
    ensures { IntroducedOnce }
{}

/// A law, with nothing to run. Where each module of a program is a checked one with its records laid
/// out, judged over interfaces that show the program's modules, the body of each procedure of a module
/// is well typed, and so is the module's own.
pub fn accepted_is_well_typed()
    ensures { AcceptedIsWellTyped }
{}

/// A law, with nothing to run. Where the bodies of a sound program are well typed, its procedures and
/// its bodies are checked as the code asks for, but for what is written beside: descriptions, limits,
/// names, and which variables are named.
pub fn well_typed_keeps()
    ensures { WellTypedKeeps }
{}
