//! The names of the types of valid builds are short.

ghost use Rattle.law_builds_written.specs.short_builds_laws.Laws.{BuildsHaveShortNames};

/// A law, with nothing to run: the names of types of a valid build are shorter than 2^16, where they
/// differ.
pub fn builds_have_short_names()
    ensures { BuildsHaveShortNames }
{}
