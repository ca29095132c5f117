//! Statements that keep the rules are tied to the types that they name.
//!
//! Checked modules are tied to the types that they name, all of which are held.
//!
//! Checked modules are tied to the types that they name, in the view from them.
#![tactic(auto)]

ghost use Rattle.law_local_uses.specs.Laws.{ConstantsAreHeld, StatementsAreTied};
ghost use Rattle.law_local_uses.specs.HeldLaws.{ModulesAreTied};
ghost use Rattle.law_local_uses.specs.TyingLaws.{ModulesTie};

/// A law, with nothing to run: statements that are judged where all that is named is held come to what
/// is tied to the types that it names, and all that counts in them is held.
pub fn statements_are_tied()
    ensures { StatementsAreTied }
{}

/// A law, with nothing to run: what a constant expression names is held too.
pub fn constants_are_held()
    ensures { ConstantsAreHeld }
{}

/// A law, with nothing to run: where a map says of the types of a checked module, whose names differ,
/// and of what other modules show, what they are, the module is tied there, and all types that it names
/// are held.
pub fn modules_are_tied()
    ensures { ModulesAreTied }
{}

/// A law, with nothing to run: a module that was checked against interfaces whose map is grounded, and
/// whose types differ in name, is tied to the types that it names, and what counts for its uses is there.
pub fn modules_tie()
    ensures { ModulesTie }
{}
