//! What the object files of builds that are loaded together have of them, and that they can be
//! entered.
#![tactic(auto)]

ghost use Rattle.law_load_enter.specs.Loaded.{CommandsAreThere, LoadedEnter, LoadedFit, NamesAreShown, WordsAreCounted};
ghost use Rattle.law_load_enter.specs.Filed.{FilesHave, FilesHaveCommands};
ghost use Rattle.law_load_enter.specs.Shown.{ShownAreDeclared};
ghost use Rattle.law_load_enter.specs.Strings.{StringsFit};
ghost use Rattle.law_load_enter.specs.Entered.{FilesEnter};

/// A law, with nothing to run, of each build of some that are loaded together: its module shows its
/// own name, the words of its file's globals are those that a plan counts, and its commands have in
/// the file the numbers of their procedures. The file has a spelling; and the files can be entered
/// one behind the other, where there is room for the words of their globals (taken for granted:
/// `BuildsAreWritten` and `BuildsAreLinked`).
pub fn loaded_files()
    ensures names { NamesAreShown }
    ensures words { WordsAreCounted }
    ensures commands { CommandsAreThere }
    ensures fits { LoadedFit }
    ensures enterable { LoadedEnter }
{}

/// A law, with nothing to run: the object file of a valid build is of the module of its name, with
/// the words of globals that a load is told of and with no more code than a module may have.
pub fn files_have()
    ensures { FilesHave }
{}

/// A law, with nothing to run: the command of a name is in the object file the procedure of that
/// name, by its number.
pub fn files_have_commands()
    ensures { FilesHaveCommands }
{}

/// A law, with nothing to run: no string in the object file of a valid build is longer than its
/// words, where all builds can be written.
pub fn strings_fit()
    ensures { StringsFit }
{}

/// A law, with nothing to run: the object files of builds that go together, with no more words of
/// globals than may be loaded, can be entered one behind the other. (Taken for granted of modules
/// that compile: `BuildsAreWritten` and `BuildsAreLinked`.)
pub fn files_enter()
    ensures { FilesEnter }
{}

/// A law, with nothing to run: what the interfaces of builds that go together have as a type is
/// declared in the module of that name.
pub fn shown_are_declared()
    ensures { ShownAreDeclared }
{}
