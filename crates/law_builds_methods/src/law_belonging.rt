//! The bound procedures that the records of a program introduce are methods of the program, where
//! its modules are those of builds that are loaded together.

ghost use Rattle.law_builds_methods.specs.belonging_laws.Loaded.{LoadedBelong};

/// A law, with nothing to run: the bound procedures that the records of builds that are loaded
/// together introduce are there.
pub fn loaded_belong()
    ensures { LoadedBelong }
{}
