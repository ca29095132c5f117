//! That what interfaces and layouts say of types is what a program declares: the map of a module's own
//! types over the interfaces of its imports, as the rules and as the code see it.
#![tactic(auto)]

ghost use Rattle.law_typing_env.specs.Laws.{RuledIsFormed, ViewedIsFormed, ViewedDescribes};
ghost use Rattle.law_typing_env.specs.Near.{UsersStand};

/// A law, with nothing to run. Where a program's types are sound and its modules whole
/// (`law_typing_forms`: `IsSound`, `IsWhole`), and the interfaces around a module are those of the program's
/// own modules, each name that the rules or the code find described is so in the program: types have
/// the forms, records the bases, fields and bound procedures, variables and procedures the types that
/// the map says. And where the records' words and places are the layout's, code takes from the map
/// the sizes, lengths and places that the types have.
pub fn maps_are_formed()
    ensures rules { RuledIsFormed }
    ensures code { ViewedIsFormed }
    ensures layout { ViewedDescribes }
{}

/// A law, with nothing to run. A module whose own types are grounded over what it was compiled
/// against stands over the modules of a program, where the types that it uses are alike in the
/// program, but for the members and the sizes of records: what it does not use may be another than it
/// was.
pub fn users_stand()
    ensures { UsersStand }
{}
