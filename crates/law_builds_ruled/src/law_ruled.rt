//! What the rules see to of each build: the types of its variables, the lengths of its arrays, and
//! what its bound procedures take and give.

ghost use Rattle.law_builds_ruled.specs.ruled_laws.Ruled.{BuildsKeepRules};
ghost use Rattle.law_builds_ruled.specs.ruled_laws.Variables.{VariablesAreDeclared};

/// A law, with nothing to run: where a variable of a checked module is declared its type stands and is
/// no open array, where its types differ in name.
pub fn variables_are_declared()
    ensures { VariablesAreDeclared }
{}

/// A law, with nothing to run: arrays of a build have lengths, the types of its variables are held and
/// no open arrays, and what its bound procedures take and give counts for its uses (`IsRuled`), where
/// its types differ in name and the map that it was compiled with is grounded.
pub fn builds_are_ruled()
    ensures { BuildsKeepRules }
{}
