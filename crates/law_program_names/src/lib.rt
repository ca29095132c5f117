//! What is owed of the declarations of builds that are loaded together.
#![tactic(auto)]

ghost use Rattle.law_program_names.specs.Sizes.{AgainstIsGrounded, ModulesDiffer, NamesDiffer, FieldsHaveNames, NothingOfOut};

/// A law, with nothing to run: the modules of builds that are loaded together have different names,
/// and the variables of each have; the fields of each record that they declare have different names;
/// and no type is that of the parameter of Out.String.
pub fn declarations_differ()
    ensures modules { ModulesDiffer }
    ensures names { NamesDiffer }
    ensures fields { FieldsHaveNames }
    ensures out { NothingOfOut }
{}

/// A law, with nothing to run: the interfaces that a valid build was compiled against have a
/// grounded map.
pub fn against_is_grounded()
    ensures { AgainstIsGrounded }
{}
