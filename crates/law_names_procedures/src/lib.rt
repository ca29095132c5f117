//! What is said of modules that compile: their procedures have different names.
#![tactic(auto)]

ghost use Rattle.law_names_procedures.specs.Procedures.{ProceduresDiffer};
ghost use Rattle.law_names_procedures.specs.Named.{HeadingsAreNamed, CompiledNamesDiffer};

/// A law, with nothing to run. The procedures of a checked module have different names, those
/// inside others and the bound ones among them, where their headings are named without stops and
/// strokes and imported modules show the bases of the pointers that they show; in a text that is
/// read, headings are named so; and the procedures of a source that compiles have different names,
/// and its module is not named Out, whatever interfaces there are, each under its name.
pub fn procedures_differ()
    ensures rules { ProceduresDiffer }
    ensures read { HeadingsAreNamed }
    ensures compiled { CompiledNamesDiffer }
{}
