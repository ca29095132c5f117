//! What is written of a module that compiles has a spelling.
#![tactic(auto)]

ghost use Rattle.law_spelling.specs.Laws.{InterfacesAreWritten, ModulesAreWritten};
ghost use Rattle.law_spelling.specs.Raw.{ReadingsAreNamed};
ghost use Rattle.law_spelling.specs.Ruled.{ModulesAreNamed};
ghost use Rattle.law_spelling.specs.Seen.{CompiledAreWritten};

/// A law, with nothing to run: the interface and the object file of a module have a spelling, each
/// with its prints, where the module is compiled against interfaces that have one and fit together,
/// exceeds no limit, and what the rules see to of its names, values, types and statements holds
/// (`specs/Trees.antt`, `specs/Coded.antt` and `specs/Files.antt`).
pub fn written()
    ensures interfaces { InterfacesAreWritten }
    ensures modules { ModulesAreWritten }
{}

/// A law, with nothing to run: in a module that is read all that is declared is named by
/// identifiers; and where that is so, the names of constants, variables, types, fields and bound
/// procedures of what is checked, and the types that they name, have a spelling.
pub fn named()
    ensures readings { ReadingsAreNamed }
    ensures rules { ModulesAreNamed }
{}

/// A law, with nothing to run: what compiles against interfaces that have a spelling is written,
/// where what is still to be seen of its module is so (`specs/Seen.antt`: `IsSeen`): that names of
/// types are short and differ, numbers are of LONGINT, positions have room, chains of types end, and
/// bases and bound procedures stand in their order.
pub fn compiled_are_written()
    ensures { CompiledAreWritten }
{}
