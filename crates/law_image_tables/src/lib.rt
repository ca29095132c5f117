//! That the record types of compiled modules have in an image of their files the bases and the
//! procedure tables that the law of simulation asks for.
#![tactic(auto)]

ghost use Rattle.law_image_tables.specs.Based.{BasesFromFiles};
ghost use Rattle.law_image_tables.specs.Families.{TablesFromFiles};
ghost use Rattle.law_image_tables.specs.Image.{ProgramFromFiles};
ghost use Rattle.law_image_tables.specs.Settled.{TypesFromDeclarations};
ghost use Rattle.law_image_tables.specs.Counted.{FamiliesFromDeclarations};

/// A law, with nothing to run. Where the object files of a program's modules are the first of an
/// image (`AreFiles`), each record type has a descriptor with the number of its base's, which stands
/// before it, and extends each of its bases (`BasesStand`). What the rules owe stays as premises: a
/// record type is built of its base (`BasesBuilt`), and its declaration names it
/// (`AllBasesDeclared`).
pub fn bases_from_files()
    ensures { BasesFromFiles }
{}

/// A law, with nothing to run. Where the object files of a program's modules are the first of an
/// image (`AreFiles`), the table of each record type has, at the number of each family of bound
/// procedures, the one that is declared nearest to the type (`TablesStand`), though the table is
/// built from that of the base and the meaning searches. What the rules owe stays as premises: the
/// families of a type have different numbers (`NumbersDiffer`), all descriptions have these numbers
/// and count them, and a family is bound to a type once (`AllFamiliesDeclared`).
pub fn tables_from_files()
    ensures { TablesFromFiles }
{}

/// A law, with nothing to run. Where the object files of a program's modules are the first of an
/// image (`AreFiles`) and the modules keep the rules (`RulesKept`), the image is as the law of
/// simulation asks (`ImageStands`): it has each procedure with the tables that its calls rest on, and
/// each record type with its words, its bases and its families, and tells the procedures that
/// variables may have as values. So are the bodies of the modules.
pub fn program_from_files()
    ensures { ProgramFromFiles }
{}

/// A law, with nothing to run. Where each record type of a program is what its declaration says
/// (`TypesSettled`), and the descriptions that its modules were compiled with are those of the
/// program, with own bases declared before (`IsDeclared`), the premises of `program_from_files` on
/// record types hold (`TypesFit`): they are well built, of their bases, and have the words and the
/// bases of their descriptions.
pub fn types_from_declarations()
    ensures { TypesFromDeclarations }
{}

/// A law, with nothing to run. Where the methods that a record type introduces have different
/// numbers, from the count of its base up to its own, and each family of a type is introduced by one
/// that it extends (`FamiliesNumbered`), the premises of `program_from_files` on the numbers of
/// families hold.
pub fn families_from_declarations()
    ensures { FamiliesFromDeclarations }
{}
