//! What makes the program of builds that are loaded together whole.

ghost use Rattle.law_builds_loaded.specs.whole_laws.Whole.{LoadedPassed, LoadedPlain, LoadedWhole};

/// A law, with nothing to run. In builds that are loaded together the names of modules differ, and in
/// each those of its types, procedures and variables. (Taken for granted: of each build alone
/// `BuildsAreRuled`; `LoadedArePassed` follows, `loaded_passed`.)
pub fn loaded_whole()
    ensures { LoadedWhole }
{}

/// A law, with nothing to run: parameters are passed as their types ask for in the program
/// (`LoadedArePassed`).
pub fn loaded_passed()
    ensures { LoadedPassed }
{}

/// A law, with nothing to run: in the program local variables are no open arrays, and results are
/// neither arrays nor records (`IsPlain`).
pub fn loaded_plain()
    ensures { LoadedPlain }
{}
