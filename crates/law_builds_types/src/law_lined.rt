//! Lines of types are short: chains of aliases, elements and bases in the program of builds that are
//! loaded together, and in the maps that say what such a program declares.

ghost use Rattle.law_builds_types.specs.lined_laws.Lined.{LoadedAreLined, OrderedAreLined, SaidHaveEnds, SaidAreSteady};

/// A law, with nothing to run. In the program of builds that are loaded together no type stands, by
/// aliases, elements of arrays, bases of records and signatures of procedure types, on a line of more
/// than 200 others. So it is of all modules in order (`StandInOrder` of law_typing_env). (Taken for
/// granted: `BuildsAreWritten`, and of each build alone `BuildsAreRuled`.)
pub fn loaded_are_lined()
    ensures ordered { OrderedAreLined }
    ensures loaded { LoadedAreLined }
{}

/// A law, with nothing to run. A map that holds the types that its descriptions name, and says of
/// types what a program declares (`IsSaid` of law_typing_forms) in which chains end and lines are short, has
/// chains that end and short lines too (`IsEnding` of law_acyclic); where each of its descriptions
/// keeps what it has to, it is steady (`IsSteady` of law_typing_forms).
pub fn said_are_steady()
    ensures ends { SaidHaveEnds }
    ensures steady { SaidAreSteady }
{}
