//! The maps that valid builds are compiled with are grounded.

ghost use Rattle.law_builds_written.specs.grounds_laws.Laws.{BuildsAreGrounded};

/// A law, with nothing to run: the map that a valid build was compiled with, whose types differ in name,
/// is grounded, and each chain of types from one of its own on has at most 200.
pub fn builds_are_grounded()
    ensures { BuildsAreGrounded }
{}
