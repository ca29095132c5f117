//! The plan of a load, over two kinds of modules of which it is told alike, and what a plan has
//! seen to. The laws that hold of any modules are `specs/Laws.antt`'s `PlansAgree` and `PlanSees`,
//! proved in `proofs/Whole.antt`.
#![tactic(auto)]

ghost use Rattle.law_load_plan.specs.Laws.{CommandsAreNumbered, CompiledAreMarked, LoadSees, WordsAgree};

/// A law, with nothing to run: the object files that a load brings in stand in turn, each behind
/// those that it imports, with what agrees with its uses and what its links name; there are few
/// enough, with room for their words, and the command is among them.
pub fn load_sees()
    ensures { LoadSees }
{}

/// A law, with nothing to run: the words of the globals in a module's object file, its variables and
/// the strings that its code lays down, are those that the layout counts, where these are no more
/// than may be loaded.
pub fn words_agree()
    ensures { WordsAgree }
{}

/// A law, with nothing to run: of a module that compiles the types are described as types, and each
/// procedure is exported in full or hidden.
pub fn compiled_are_marked()
    ensures { CompiledAreMarked }
{}

/// A law, with nothing to run: where the procedures of a module are named apart, its command of a
/// name has in the object file the number of its procedure.
pub fn commands_are_numbered()
    ensures { CommandsAreNumbered }
{}
