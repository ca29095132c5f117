//! That the types of a checked module have different names.
#![tactic(auto)]

ghost use Rattle.law_names_compiled.specs.Differ.{CompiledTypesDiffer, ReadTypesDiffer, TypesDiffer};

/// A law, with nothing to run: the types of a checked module whose declarations are named by words
/// have different names, where what imported modules show as a pointer's base is shown; and so do
/// those of each module that is read of a text of fewer than 4,294,967,295 characters, and of each
/// one that compiles.
pub fn types_differ()
    ensures rules { TypesDiffer }
    ensures read { ReadTypesDiffer }
    ensures compiled { CompiledTypesDiffer }
{}
