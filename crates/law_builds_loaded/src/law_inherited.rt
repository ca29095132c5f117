//! The families of bound procedures of builds that are loaded together.

ghost use Rattle.law_builds_loaded.specs.inherited_laws.Laws.{LoadedFamiliesFit, LoadedHaveBindings, LoadedKeepRules};

/// A law, with nothing to run. What is bound in each module of builds that are loaded together is bound
/// to a record of the module, one of whose bases introduces it, by what the modules before it show. So
/// the families of a type have different numbers, descriptions have these numbers and count them, and
/// each family is bound to a type once, in the words of `RulesKept`.
pub fn loaded_families_fit()
    ensures bindings { LoadedHaveBindings }
    ensures fit { LoadedFamiliesFit }
{}

/// A law, with nothing to run. All that the rules owe (`RulesKept`) of builds that are loaded together,
/// where their procedures and bodies are checked, and bound procedures are like the methods of their
/// families.
pub fn loaded_keep_rules()
    ensures { LoadedKeepRules }
{}
