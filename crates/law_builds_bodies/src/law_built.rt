//! The procedures of builds that are loaded together: their variables differ in name and can be built,
//! and those that redefine others are alike.

ghost use Rattle.law_builds_bodies.specs.built_laws.Built.{LikeAreNearest, LoadedAreBuilt, LoadedAreRedefined};
ghost use Rattle.law_builds_bodies.specs.built_laws.Lettered.{ReadingsAreLettered};
ghost use Rattle.law_builds_bodies.specs.built_laws.Procedures.{PlacesAreThose, ProceduresAreGiven};

/// A law, with nothing to run: variables, parameters, receivers and procedures of a module that is
/// read have names, none of which begins with 0, as those do under which FOR and CASE keep values.
pub fn readings_are_lettered()
    ensures { ReadingsAreLettered }
{}

/// A law, with nothing to run. The statements that are made of a text have the places of its FOR and
/// CASE, in their order. So the procedures of a checked module have bodies whose places rise, where
/// those of the text do, and names that do not begin with 0.
pub fn procedures_are_given()
    ensures places { PlacesAreThose }
    ensures procedures { ProceduresAreGiven }
{}

/// A law, with nothing to run: in builds that are loaded together procedures have names, results that
/// are neither arrays nor records, and variables of different names that can be built, as variables of
/// modules can (`AreBuilt`). (Taken for granted: `BuildsAreWritten`, `BuildsAreRuled`,
/// `LoadedAreSound`.)
pub fn loaded_are_built()
    ensures { LoadedAreBuilt }
{}

/// A law, with nothing to run: where bound procedures are like the methods of their families, a record
/// type that extends one to which a procedure is bound has one of that family that gives and takes the
/// same, and receives the record in the same way (`AreRedefined`). So it is in the program of builds
/// that are loaded together.
pub fn loaded_are_redefined()
    ensures program { LikeAreNearest }
    ensures loaded { LoadedAreRedefined }
{}
