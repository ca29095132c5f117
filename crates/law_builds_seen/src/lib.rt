//! What statements name of records is there.
#![tactic(auto)]

ghost use Rattle.law_builds_seen.specs.Laws.{ModulesSee, StatementsAreSeen};

/// A law, with nothing to run: the fields and the bound procedures that statements name are members of
/// their records in each map that keeps the members of the map that the statements are judged by.
pub fn statements_are_seen()
    ensures { StatementsAreSeen }
{}

/// A law, with nothing to run: so it is of a valid build, in the view of its module from the interfaces
/// that it was compiled against; and what its bound procedures are bound to is there too.
pub fn modules_see()
    ensures { ModulesSee }
{}
