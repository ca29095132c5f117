//! What is known of a valid build, and of builds that go together.
#![tactic(auto)]

ghost use Rattle.law_builds.specs.Following.{AfreshFollows};

/// A law, with nothing to run: the sources of builds that go together are a well formed program,
/// taken afresh together, and its interfaces are those of the builds, where a valid build is the
/// same against all interfaces that have the texts of its uses.
pub fn taken_afresh()
    ensures { AfreshFollows }
{}
