//! The layout of builds that are loaded together.

ghost use Rattle.law_builds_loaded.specs.laying_laws.Laying.{LoadedLaid};

/// A law, with nothing to run. Builds that are loaded together are laid out, each over what those
/// before it declare now: the sizes that its layout sums are met by the texts of its uses. (Taken for
/// granted: `BuildsAreWritten`, and of each build alone `BuildsAreRuled` and `Locality`.)
pub fn loaded_laid()
    ensures { LoadedLaid }
{}
