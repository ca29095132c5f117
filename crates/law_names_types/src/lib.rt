//! What the names of a module's types say of them.
//!
//! What the rules see to of the names that headings have.
//!
//! That the types of a sequence of declarations differ in name.
#![tactic(auto)]

ghost use Rattle.law_names_types.specs.Nested.{HeadingsDiffer, SequencesAreNested, WrittenAreNested};
ghost use Rattle.law_names_types.specs.Fields.{BoundAreFree};
ghost use Rattle.law_names_types.specs.Once.{HeadingsAreOnce};
ghost use Rattle.law_names_types.specs.Unlike.{BlocksDiffer};

/// A law, with nothing to run: of the types that a written type makes, those whose names go on with a
/// stop behind a record's name are of a field of the record.
pub fn written_are_nested()
    ensures { WrittenAreNested }
{}

/// A law, with nothing to run: so are those that the declarations of a sequence make.
pub fn sequences_are_nested()
    ensures { SequencesAreNested }
{}

/// A law, with nothing to run: the types that a heading makes are of its parameters, and differ in name.
pub fn headings_differ()
    ensures { HeadingsDiffer }
{}

/// A law, with nothing to run: no record has a field of the name of a procedure that is bound to it,
/// where what is bound keeps the rules.
pub fn bound_are_free()
    ensures { BoundAreFree }
{}

/// A law, with nothing to run: headings that keep the rules have names of their own: those that are
/// bound among those of their record, and the others among all that is declared before them.
pub fn headings_are_once()
    ensures { HeadingsAreOnce }
{}

/// A law, with nothing to run: the types that the declarations of a module or of a procedure make,
/// and those that the headings of its procedures make, have different names, where the rules are kept.
pub fn blocks_differ()
    ensures { BlocksDiffer }
{}
