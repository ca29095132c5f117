//! Modules are judged the same with other interfaces around.
//!
//! What declarations leave for later, and modules with other interfaces around.
//!
//! Declarations of variables in a text that is read.
#![tactic(auto)]

ghost use Rattle.law_local_module.specs.Laws.{ModulesAgree};
ghost use Rattle.law_local_module.specs.DeferredLaws.{LaterIsSaid, ModulesStay};
ghost use Rattle.law_local_module.specs.ReadingLaws.{ReadingsDeclare};

/// A law, with nothing to run. A module that breaks no rule is the same checked module with other
/// interfaces around, and breaks no rule there, where those show the same of all that it mentions and
/// of what is near it (`specs/Laws.antt`).
pub fn modules_agree()
    ensures { ModulesAgree }
{}

/// A law, with nothing to run. What declarations and headings that break no rule leave for later, the
/// bases of pointers and of the records of fields, is among these names where all that their notes
/// mention is (`law_local_module`: `LeavesIn`); expressions leave nothing. So a module that breaks no rule is
/// the same checked module with other interfaces around that show the same of all that counts for it
/// (`law_local_module`: `CountsAlike`).
pub fn later_is_said()
    ensures later { LaterIsSaid }
    ensures modules { ModulesStay }
{}

/// A law, with nothing to run: each declaration of variables in a module that is read declares one at
/// least, also inside procedures.
pub fn readings_declare()
    ensures { ReadingsDeclare }
{}
