//! The links of object files name what their modules use.
#![tactic(auto)]

ghost use Rattle.law_links.specs.Linked.{LinksFollow};
ghost use Rattle.law_links.specs.Trees.{LinksFollowTrees};
ghost use Rattle.law_links.specs.Said.{CompiledNamesUsed};
ghost use Rattle.law_links.specs.Types.{CompiledTypesUsed};

/// A law, with nothing to run: where all that the code of a module names of other modules counts for
/// its uses and is of the kind that it is named as, the links of its object file name what it uses;
/// and so it is where all that its checked tree names does, so far as the code names it too
/// (`specs/Trees.antt`).
pub fn links_follow()
    ensures code { LinksFollow }
    ensures trees { LinksFollowTrees }
{}

/// A law, with nothing to run: the links to variables and procedures in the object file of a module
/// that compiles name what it uses, whatever interfaces there are.
pub fn names_are_used()
    ensures { CompiledNamesUsed }
{}

/// A law, with nothing to run: the links to record types in the object file of a module that
/// compiles name what it uses, where each name has an interface of that name, or none.
pub fn types_are_used()
    ensures { CompiledTypesUsed }
{}
