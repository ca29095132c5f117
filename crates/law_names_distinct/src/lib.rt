//! That what a module declares has different names.
#![tactic(auto)]

ghost use Rattle.law_names_distinct.specs.Distinct.{ModulesAreNotOut, VariablesDiffer};
ghost use Rattle.law_names_distinct.specs.Fields.{FieldsDifferAll};
ghost use Rattle.law_names_distinct.specs.Procedures.{ProceduresHaveNames};
ghost use Rattle.law_names_distinct.specs.Short.{ChainsAreShort};

/// A law, with nothing to run: the variables of a checked module have different names.
pub fn variables_differ()
    ensures { VariablesDiffer }
{}

/// A law, with nothing to run: the fields of each record of a checked module have different names.
pub fn fields_differ()
    ensures { FieldsDifferAll }
{}

/// A law, with nothing to run: no checked module is named Out.
pub fn modules_are_not_out()
    ensures { ModulesAreNotOut }
{}

/// A law, with nothing to run: where the types of a module name only types that are there, and the
/// limit of depth is kept, each chain from one of them on has at most 200 types.
pub fn chains_are_short()
    ensures { ChainsAreShort }
{}

/// A law, with nothing to run: the parameters and the local variables of each procedure of a checked
/// module have different names.
pub fn procedures_have_names()
    ensures { ProceduresHaveNames }
{}
