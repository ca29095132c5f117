//! What the procedures of checked modules take, give and have inside, by what is known where they are
//! declared.

ghost use Rattle.law_builds_ruled.specs.passed_laws.Passed.{ProceduresAreWell};

/// A law, with nothing to run: in a checked module whose types differ in name each parameter of a
/// procedure, and each receiver, is passed as what is known of its type where it is declared asks for;
/// results are neither arrays nor records, and local variables are no open arrays.
pub fn parameters_are_passed()
    ensures { ProceduresAreWell }
{}
