//! The variables that the bodies of checked modules name are there, and FOR has steps other than 0.
#![tactic(auto)]

ghost use Rattle.law_program_scope.specs.Laws.{ModulesAreScoped, ProgramsAreScoped};

/// A law, with nothing to run. A local variable that the body of a procedure of a checked module names
/// is one of that procedure, and so is a parameter; the body of a module names neither; and no step of
/// FOR is 0. So it is of each module of a program whose modules were judged.
pub fn bodies_are_scoped()
    ensures modules { ModulesAreScoped }
    ensures programs { ProgramsAreScoped }
{}
