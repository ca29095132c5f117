//! The bound procedures of builds that are loaded together are like the methods of their families:
//! a procedure that redefines another has its kind of receiver, and takes and gives what it does.

ghost use Rattle.law_builds_methods.specs.likeness_laws.Checked.{CheckedAreLike};
ghost use Rattle.law_builds_methods.specs.likeness_laws.Loaded.{LoadedLike};

/// A law, with nothing to run: in a sound program that has a checked module of a text, each bound
/// procedure of the module receives its record by a receiver of the kind of the method that its family
/// names, and takes and gives what the method does.
pub fn checked_are_like()
    ensures { CheckedAreLike }
{}

/// A law, with nothing to run: so do the bound procedures of all modules of builds that are loaded
/// together.
pub fn loaded_are_like()
    ensures { LoadedLike }
{}
