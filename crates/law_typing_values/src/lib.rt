//! Which procedures may be values of variables of a procedure type, and what such values are.
#![tactic(auto)]

ghost use Rattle.law_typing_values.specs.Families.{FamiliesRedefined};
ghost use Rattle.law_typing_values.specs.Around.{ValuesAround};
ghost use Rattle.law_typing_values.specs.Laws.{EqualAreForms, MatchingAreAlike, MatchingIsHaving, RedefinitionsAreAlike, ValuesAreMade, ValuesFit, ValuesStay};

/// A law, with nothing to run: where these procedures are the values, each is a procedure of the
/// program and matches the signature, as the law of simulation asks for.
pub fn values_fit()
    ensures { ValuesFit }
{}

/// A law, with nothing to run: a procedure that has a signature is a value of a variable of its
/// procedure type. Where a map says what the program has, types that the rules take for equal are of
/// one form, and procedure types whose signatures match are one: so it is a value of each of them, has
/// each signature that matches its own, and is alike in parameters and result to procedures that have
/// such a one, as those that redefine others.
pub fn values_are_made()
    ensures made { ValuesAreMade }
    ensures equal { EqualAreForms }
    ensures alike { MatchingAreAlike }
    ensures matching { MatchingIsHaving }
    ensures redefining { RedefinitionsAreAlike }
{}

/// A law, with nothing to run: what is a value is so also where one more module is behind the
/// program.
pub fn values_stay()
    ensures { ValuesStay }
{}

/// A law, with nothing to run: the procedures of which the law of well typed trees asks that they
/// are values (`IsSurrounded` of law_typing: `values`) are so, where procedures have types of the
/// program; and so they are of each procedure type whose signature matches theirs.
pub fn values_around()
    ensures { ValuesAround }
{}

/// A law, with nothing to run: where each record type that extends one with a bound procedure has a
/// procedure of that family, alike but for its receiver, redefinitions are as the law of well typed
/// trees asks for (`IsSurrounded` of law_typing: `redefined`).
pub fn families_are_redefined()
    ensures { FamiliesRedefined }
{}
