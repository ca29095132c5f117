//! What is asked of the statements of a module, so that their code has a spelling.
//!
//! The statements of modules that are read.
#![tactic(auto)]

ghost use Rattle.law_spelling_stmts.specs.Laws.{NamesAreCoded};
ghost use Rattle.law_spelling_stmts.specs.FitLaws.{ModulesFit};

/// A law, with nothing to run: the names of other modules in the statements of a module have a
/// spelling, where the module's types differ in name and it keeps the rules against interfaces that
/// have a spelling and fit together.
pub fn names_are_coded()
    ensures { NamesAreCoded }
{}

/// A law, with nothing to run: the statements of a module that is read from a text of fewer than
/// 2^30 characters, and keeps the rules against interfaces that have a spelling, fit, where its types
/// differ in name, its arrays are short and its chains of types end.
pub fn statements_fit()
    ensures { ModulesFit }
{}
