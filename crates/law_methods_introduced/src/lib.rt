//! What the rules see to of headings: procedures that others see are named by identifiers, and those
//! with a receiver are bound.
//!
//! That the numbers of bound procedures are below the number of bound procedures of their record.
#![tactic(auto)]

ghost use Rattle.law_methods_introduced.specs.Laws.{OutwardAreNamed};
ghost use Rattle.law_methods_introduced.specs.Families.{FamiliesAreThere};
ghost use Rattle.law_methods_introduced.specs.NumberLaws.{NumbersAreBelow};

/// A law, with nothing to run: the exported procedures of a checked module that are not bound are
/// named by identifiers, where what its text declares is, and its types have different names.
pub fn outward()
    ensures { OutwardAreNamed }
{}

/// A law, with nothing to run: each bound procedure of such a module is bound to a record type of the
/// module, and that or one of its bases introduces a procedure of its name.
pub fn introduced()
    ensures { FamiliesAreThere }
{}

/// A law, with nothing to run: the procedures that are bound to a record type of a module have
/// numbers below its number of bound procedures, where interfaces fit, none is of the module's name,
/// chains of types end, and each is bound to what one of the record's bases introduces.
pub fn numbers()
    ensures { NumbersAreBelow }
{}
