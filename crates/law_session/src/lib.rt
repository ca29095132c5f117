//! The laws that tie what a session means to the byte session.
#![tactic(auto)]

ghost use Rattle.law_session.specs.Chain.{SessionsChain};
ghost use Rattle.law_session.specs.Composing.{ChecksFollow, Composes, EmptyIsKept, FrontsAgree, HeadlineFollows, HeadlineHolds, KeptStays, LinesAgreeAll, NewBuildsAreValid};
ghost use Rattle.law_session.specs.Named.{ImportsAreNamed};
ghost use Rattle.law_session.specs.Kept.{KeptCompilesAlike};
ghost use Rattle.law_session.specs.Loads.{LoadsAlike};
ghost use Rattle.law_session.specs.Makes.{MakesAlike};
ghost use Rattle.law_session.specs.Holds.{HeadlineHolds as FromPromises, LinesHold};
ghost use Rattle.law_session.specs.OneAge.{ApartAreTold, HeadlineHoldsAsCompared, HeadlineHoldsInOneAge, OneAgeStays, WorldsGiveOneAge};

/// A law, with nothing to run: the empty folder keeps the empty library.
pub fn empty_is_kept()
    ensures { EmptyIsKept }
{}

/// A law, with nothing to run: files keep a library, a file replaced by a build's and its entry
/// becoming that build.
pub fn kept_stays()
    ensures { KeptStays }
{}

/// A law, with nothing to run: a check over kept files is the check over the library, where builds
/// are written as they are read and prints tell apart what it compares.
pub fn checks_alike()
    ensures { ChecksFollow }
{}

/// A law, with nothing to run: what compiles against a library is a valid build of the interfaces
/// of its walk.
pub fn new_builds_are_valid()
    ensures { NewBuildsAreValid }
{}

/// A law, with nothing to run: each line of the byte session agrees with its meaning, where
/// compiles and plans over kept files are those over the library, builds are written as they are
/// read, and commands by the table are those of the meaning.
pub fn lines_agree()
    ensures { LinesAgreeAll }
{}

/// A law, with nothing to run: where each line of the byte session agrees with its meaning, what
/// the byte session is promised to write, answer and leave is what the meaning says; and before
/// each line the loaded sources, taken afresh together, are a well formed program.
pub fn sessions_compose()
    ensures { Composes }
{}

/// A law, with nothing to run: the headline of a session over files that a library keeps follows
/// from what the byte session is promised, where each line of the two agrees.
pub fn headline_follows()
    ensures { HeadlineFollows }
{}

/// A law, with nothing to run: the headline of each session with accepted words, over files that a
/// library keeps and prints that tell apart what it compares, from the laws of compiles, plans,
/// written builds, locality and simulation alone.
pub fn headline_holds()
    ensures { HeadlineHolds }
{}

/// A law, with nothing to run: the texts of the first so many lines, which a session that was cut
/// short has written, are those of the meaning.
pub fn fronts_agree()
    ensures { FrontsAgree }
{}

/// A law, with nothing to run: in a text that is read as a module, the modules that it imports are
/// named by identifiers.
pub fn imports_are_named()
    ensures { ImportsAreNamed }
{}

/// A law, with nothing to run: where files keep a library, all builds can be written, and prints
/// tell apart what the compile compares, a source compiles over the files as it does over the
/// library: the same reason of a refusal is printed, or it is a module that shows the same, and the
/// bytes of its two files are the same.
pub fn kept_compiles_alike()
    ensures { KeptCompilesAlike }
{}

/// A law, with nothing to run: where files keep a library, all builds can be written, the links of
/// each module that compiles name what it uses, and prints tell apart what the load compares, a load
/// over the files is the load over the library: the same reason of a refusal is printed, or the files
/// that it brings in are those of the builds, which go together with the loaded ones.
pub fn loads_alike()
    ensures { LoadsAlike }
{}

/// A law, with nothing to run: where files keep a library and all builds can be written, a make over
/// the files has the order of a make over the library, and the same is done of each of its modules
/// where prints tell apart what its check compares.
pub fn makes_alike()
    ensures { MakesAlike }
{}

/// A law, with nothing to run. Of each session with accepted words, over files that a library keeps
/// and texts that are apart: what the byte session is promised to write, answer and leave is what
/// the meaning of the library's sources says, whole or cut short; the files keep the library; and
/// before each line the loaded sources, taken afresh together, are a well formed program with the
/// interfaces of the builds. The second clause says of each front of the lines that its text is
/// that of the meaning.
///
/// It rests on laws of builds that are premises here (`Promises` of `ob_builds`): each is the
/// same against all interfaces that have the texts of its uses, commands by the table are those of
/// the meaning, and what is written of a build has a spelling.
pub fn headline()
    ensures whole { FromPromises }
    ensures lines { LinesHold }
{}

/// A law, with nothing to run. What a session leaves, whole or cut short, is what the next one starts
/// from: its files keep the library that it left, whose builds are valid. So over any number of
/// sessions in one folder, from an empty one on, the headline asks of each only that the texts spoken
/// of are apart.
pub fn sessions_chain()
    ensures { SessionsChain }
{}

/// A law, with nothing to run. A session compares the text that a use keeps with the text that its
/// object has by now, and by the bytes of files it compares their prints. The clauses say:
/// - where no two texts of the builds spoken of share a print, prints tell apart all that is compared;
/// - the headline of a session asks for no more than that;
/// - where all that is compared is of one age, each use keeping the very text that its object has by
///   now, the headline holds with nothing asked of prints;
/// - so it is where each world on the way is of one age, its library and the loaded builds together;
/// - so it is with every script that compiles nothing, where the library is of one age.
///
/// The laws of builds (`Promises` of `ob_builds`) are premises here.
pub fn one_age()
    ensures told { ApartAreTold }
    ensures compared { HeadlineHoldsAsCompared }
    ensures whole { HeadlineHoldsInOneAge }
    ensures worlds { WorldsGiveOneAge }
    ensures stays { OneAgeStays }
{}
