//! That builds which are loaded together stand in the machine as they are meant: the laws of files,
//! of tables and of simulation put together, and what is still owed to them.
#![tactic(auto)]

ghost use Rattle.law_program_image.specs.Owed.{OwedGives};
ghost use Rattle.law_program_image.specs.Laws.{LoadedAreDeclared, LoadedTypesFit, LoadedValuesAre, SoundAreSettled};
ghost use Rattle.law_program_image.specs.Numbers.{MethodsAreNumbered};
ghost use Rattle.law_program_image.specs.Families.{BindingsAreOnce, FamiliesAreIntroduced};
ghost use Rattle.law_program_image.specs.Like.{LikeAreRedefined};
ghost use Rattle.law_program_image.specs.Named.{BindingsAreNamed};

/// A law, with nothing to run. Where what is owed of loaded builds is so (`specs/Owed.antt`, each in
/// one sentence), they are as the law of simulation of all commands asks (`law_program_runs`:
/// `BuildsStand`): their files are their modules', and each program of them stands in the image of
/// its files, with its procedures, bodies, types and tables.
pub fn builds_stand()
    ensures { OwedGives }
{}

/// A law, with nothing to run: what may be the value of a variable of a procedure type is a procedure
/// of the program that matches the type.
pub fn loaded_values_are()
    ensures { LoadedValuesAre }
{}

/// A law, with nothing to run. Each type of a sound program is what its declaration says; the types of
/// each module that is loaded differ in name, and each stands behind the types of the module that it
/// extends, since its object file could be written. So record types are well built, of their bases,
/// and descriptions have their words and their bases.
pub fn loaded_types_fit()
    ensures settled { SoundAreSettled }
    ensures declared { LoadedAreDeclared }
    ensures fit { LoadedTypesFit }
{}

/// A law, with nothing to run: in modules that are laid out in order, the bound procedures that a
/// record introduces have different numbers, from the count of its base up to its own.
pub fn methods_are_numbered()
    ensures { MethodsAreNumbered }
{}

/// A law, with nothing to run: each family of a record type of a sound program is introduced by a type
/// that it extends, or by itself, where the bindings of its modules are those of the checked modules
/// (`HasBindings`).
pub fn families_are_introduced()
    ensures { FamiliesAreIntroduced }
{}

/// A law, with nothing to run: where the procedures of a module differ in name, no two of a family are
/// bound to one type.
pub fn bindings_are_once()
    ensures { BindingsAreOnce }
{}

/// A law, with nothing to run: in a checked module whose types differ in name, each bound procedure is
/// named by the record that it is bound to and by its family.
pub fn bindings_are_named()
    ensures { BindingsAreNamed }
{}

/// A law, with nothing to run: where the bound procedures of a sound program are like the methods of
/// their families (`AreLike`), those that redefine others are alike but for the receiver, in the words
/// of `RulesKept`.
pub fn like_are_redefined()
    ensures { LikeAreRedefined }
{}
