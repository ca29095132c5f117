//! What builds that are loaded together show is closed, and keeps what types have to.

ghost use Rattle.law_builds_types.specs.closed_laws.Closed.{HeadsRuled, LoadedClosed};

/// A law, with nothing to run. In the descriptions that a build was compiled with, what each of its
/// procedures takes and gives are types, and a result is neither record nor array. (Taken for granted,
/// of each build alone: `BuildsAreRuled`.)
pub fn heads_ruled()
    ensures { HeadsRuled }
{}

/// A law, with nothing to run. Each type that an object names which builds that are loaded together
/// show is a type that they show too, whatever interfaces they were compiled against: one of the
/// object's own module is reached through it, so it is among its objects, and one of another module
/// counts for its uses, whose texts are met. Each such object keeps what its description has to: bases
/// are records, open arrays stand where they may, and results are neither records nor arrays
/// (`IsClosed` of law_acyclic). Nothing is said of how long chains of types are. (Taken for granted:
/// `BuildsAreWritten`, and of each build alone `BuildsAreRuled`.)
pub fn loaded_closed()
    ensures { LoadedClosed }
{}
