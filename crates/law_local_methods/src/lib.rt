//! Members of records while procedures are bound to them, and what headings redefine.
#![tactic(auto)]

ghost use Rattle.law_local_methods.specs.Laws.{MembersStay, RedefinedAreFound, HeadsAreOwned};

/// A law, with nothing to run. Where a procedure is bound to a record that has no member of its name,
/// each member that any record had is the same after it. So a bound procedure that a heading redefines
/// is found in its place also when all that is bound is known; and what headings redefine mentions
/// these names alone while procedures are bound, where it does so then. Each heading is bound to a
/// record of the module at hand, if to any.
pub fn members_stay()
    ensures members { MembersStay }
    ensures redefined { RedefinedAreFound }
    ensures owned { HeadsAreOwned }
{}
