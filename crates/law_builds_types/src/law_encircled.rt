//! The maps of types around the bodies of builds that are loaded together are steady.

ghost use Rattle.law_builds_types.specs.encircled_laws.Encircled.{LoadedAreSteady};

/// A law, with nothing to run. The modules of builds that are loaded together are judged ones
/// (`law_program_context`: `AreJudgedModules`), and the maps of types around their bodies, and around those of
/// their procedures, are steady (`law_program_typing`: `AreSteadyModules`), whatever the ages of the builds:
/// what those before a build show is closed, and the lines of aliases, elements and bases in the
/// program are short. (Taken for granted: `BuildsAreWritten`, of each build alone `BuildsAreRuled` and
/// `Locality`, and that the program is sound and whole.)
pub fn loaded_are_steady()
    ensures { LoadedAreSteady }
{}
