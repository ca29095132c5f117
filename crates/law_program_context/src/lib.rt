//! What stands around the bodies of a checked module is so in a program.
//!
//! Interfaces of a program's modules show constants and lengths that are in range.
//!
//! What a program has whose modules were each judged over interfaces of the program.
#![tactic(auto)]

ghost use Rattle.law_program_context.specs.Laws.{ProceduresSurrounded, ModulesSurrounded, BodiesFit};
ghost use Rattle.law_program_context.specs.ShownLaws.{FullAreShown, LaidAreFull};
ghost use Rattle.law_program_context.specs.JudgedLaws.{ConstantsShown, MapsFormed, ProceduresTyped, ValuesHad};

/// A law, with nothing to run. What is known around the body of a procedure of a checked module, and
/// around the module's own body, is so in a program that has the module (`law_typing`: `IsSurrounded`),
/// beside what is left to ask (`specs/Left.antt`: `IsLeft`): variables and parameters have their slots
/// and forms, procedures are those of the program, receivers are of their records, bound procedures of
/// one name have receivers of one kind, types are held, and constants are constants. And a body that is
/// judged in such surroundings is well typed.
pub fn bodies_are_surrounded()
    ensures procedures { ProceduresSurrounded }
    ensures modules { ModulesSurrounded }
    ensures bodies { BodiesFit }
{}

/// A law, with nothing to run. Where the constants of a program's modules are constants and their arrays
/// have lengths (as `law_body_context` says of each checked module), the interfaces that show these modules
/// show constants and lengths in range, as `law_body_context` asks; and a module is so with its records laid
/// out as it was before.
pub fn constants_are_shown()
    ensures shown { FullAreShown }
    ensures laid { LaidAreFull }
{}

/// A law, with nothing to run. Where each module of a program is a checked one with its records laid
/// out, judged over interfaces that show the program's modules, the types of the parameters and the
/// results of its procedures are types of the program; what these interfaces show as constants are
/// constants; and each procedure that may be a value is one of the procedure type of its signature.
/// Where such a program is sound, the map of types at each body and at each heading of a module says
/// what the program has.
pub fn programs_are_judged()
    ensures typed { ProceduresTyped }
    ensures constants { ConstantsShown }
    ensures values { ValuesHad }
    ensures maps { MapsFormed }
{}
