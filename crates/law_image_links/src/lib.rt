//! That what is compiled stands in the image that its files become: the premises of the law of
//! simulation that come from files.
#![tactic(auto)]

ghost use Rattle.law_image_links.specs.Files.{CompiledStand};
ghost use Rattle.law_image_links.specs.Records.{RecordTypesStand, RecordBasesStand, ProceduresNumbered};
ghost use Rattle.law_image_links.specs.Contents.{FilesHaveContents, FilesHaveCommands};
ghost use Rattle.law_image_links.specs.Same.{FilesSame};
ghost use Rattle.law_image_links.specs.Standing.{ProceduresStand, BodiesStand};

/// A law, with nothing to run. Where the object files of the modules of a program are the first of
/// an image, in their order, and could be entered one behind the other (`specs/Files.antt`:
/// `AreFiles`; an accepted plan gives it), each module stands in the image as it was compiled: under
/// its number, with its globals at its place, its code and positions, its strings among its words in
/// the order in which the code uses them, and its links and types have what they name. What the
/// rules owe stays as a premise (`KeepsRules`).
pub fn compiled_stand()
    ensures { CompiledStand }
{}

/// A law, with nothing to run. In such an image each procedure of the program stands as the law of
/// simulation asks, and so does each module's body that is checked, both by the numbers of bound
/// procedures that the descriptions of its module have.
pub fn procedures_stand()
    ensures procedures { ProceduresStand }
    ensures bodies { BodiesStand }
{}

/// A law, with nothing to run. In such an image each record type of the program has its descriptor,
/// with its words, and so has each of its bases, before what extends it. Premise is that record
/// types are what their declarations say (`specs/Records.antt`: `AllDeclared`).
pub fn records_stand()
    ensures types { RecordTypesStand }
    ensures bases { RecordBasesStand }
{}

/// A law, with nothing to run. In such an image the procedures that variables may have as values are
/// told by words.
pub fn procedures_numbered()
    ensures { ProceduresNumbered }
{}

/// A law, with nothing to run. The file of a compiled module that has a spelling has the room of the
/// module's variables and the words of the strings that its code uses, in order; and each command
/// has in it the number of its procedure.
pub fn files_have()
    ensures contents { FilesHaveContents }
    ensures commands { FilesHaveCommands }
{}

/// A law, with nothing to run. By two maps of descriptions that say the same of the types, fields and
/// bound procedures that a module names (`specs/Same.antt`: `ModuleSame`), its object file is the
/// same. So a file that was compiled with what its module knows is the one by the descriptions of
/// the whole program, of which the other laws speak.
pub fn files_same()
    ensures { FilesSame }
{}
