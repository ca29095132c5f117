//! What the rules make of declarations: types are described as types, and a procedure is exported in
//! full or not at all.
#![tactic(auto)]

ghost use Rattle.law_methods_described.specs.Described.{TypesAreDescribed, ProceduresAreMarked};

/// A law, with nothing to run: each type of a checked module is described as a type, neither as a
/// constant, a variable nor a procedure; and each of its procedures is exported in full or hidden.
pub fn types_are_described()
    ensures types { TypesAreDescribed }
    ensures marks { ProceduresAreMarked }
{}
