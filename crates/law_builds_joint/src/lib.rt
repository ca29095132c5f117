//! The descriptions that modules were compiled with, and the declarations of their program.
#![tactic(auto)]

ghost use Rattle.law_builds_joint.specs.Agreement.{ReadAreSame};
ghost use Rattle.law_builds_joint.specs.Joint.{BuildsAreNamedApart, LoadedAreSame};

/// A law, with nothing to run. Two maps of descriptions that agree on what a module reads say the
/// same of it, where the members that it names are those of their owners.
pub fn read_are_same()
    ensures { ReadAreSame }
{}

/// A law, with nothing to run. What a valid build shows that is no type has not the name of one of
/// its types, and the bound procedures that one of its records introduces have different names.
pub fn builds_are_named_apart()
    ensures { BuildsAreNamedApart }
{}

/// A law, with nothing to run. The descriptions that a loaded module was compiled with say of what it
/// names what its declarations in the program say. (Taken for granted: `BuildsAreWritten`,
/// `BuildsAreRuled`, and that the types of loaded builds are sound.)
pub fn loaded_are_same()
    ensures { LoadedAreSame }
{}
