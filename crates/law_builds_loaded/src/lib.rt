//! What builds that are loaded together declare: their modules stand in order, are sound, whole and
//! laid out, and the families of their bound procedures fit.
#![tactic(auto)]

pub mod law_inherited;
pub mod law_laying;
pub mod law_whole;

ghost use Rattle.law_builds_loaded.specs.Loaded.{LoadedAreSound, LoadedDescribe, LoadedFormsStay, LoadedStand, LoadedValuesStay, LoadedVariables};
ghost use Rattle.law_builds_loaded.specs.Sound.{OrderedDescribe, VariablesHaveForms};
ghost use Rattle.law_builds_loaded.specs.Staying.{OrderedStay};

/// A law, with nothing to run. Each module of builds that are loaded together stands over those
/// before it (`StandsOver` of law_typing_env): the types that it sees of others are as those declare
/// them now, but for the members of records, whatever interfaces it was compiled against, since the
/// texts of its uses are met. (Taken for granted: `BuildsAreWritten`, and of each build alone
/// `BuildsAreRuled`.)
pub fn loaded_stand()
    ensures { LoadedStand }
{}

/// A law, with nothing to run. Types, variables of modules, and procedures that are values stay so
/// where one more build is loaded, in the words of `Owed`.
pub fn loaded_stay()
    ensures ordered { OrderedStay }
    ensures forms { LoadedFormsStay }
    ensures values { LoadedValuesStay }
{}

/// A law, with nothing to run. Where the bound procedures that records introduce are there
/// (`BoundAreThere`), the types of builds that are loaded together are sound, and the variables of
/// their modules can have first values, in the words of `Owed`. And the declarations of a sound
/// program whose modules are whole and laid out in order describe its types (`IsDescribed` of
/// law_image_code): so it is of builds that are loaded together, where their modules are.
pub fn loaded_are_sound()
    ensures sound { LoadedAreSound }
    ensures forms { VariablesHaveForms }
    ensures variables { LoadedVariables }
    ensures ordered { OrderedDescribe }
    ensures described { LoadedDescribe }
{}
