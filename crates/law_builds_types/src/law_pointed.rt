//! Builds that are loaded together show the bases of the pointers that they show.

ghost use Rattle.law_builds_types.specs.pointed_laws.Pointed.{LoadedBases};

/// A law, with nothing to run. Where one of the builds that are loaded before another shows a pointer
/// type whose base is a named type, they show that type too, whatever interfaces they were compiled
/// against, since what they show is closed (`loaded_closed`); and it is none of the other's module.
/// (Taken for granted: `BuildsAreWritten`, and of each build alone `BuildsAreRuled`.)
pub fn loaded_bases()
    ensures { LoadedBases }
{}
