//! What is written of a valid build has a spelling: the map that it was compiled with is grounded,
//! bases stand before their extensions, and names are short.
#![tactic(auto)]

pub mod law_based;
pub mod law_grounds;
pub mod law_short_builds;

ghost use Rattle.ob_builds.specs.Written.{BuildsAreWritten};
ghost use Rattle.law_builds_written.specs.Upheld.{SimulationSuffices};
ghost use Rattle.law_builds_written.specs.Laws.{ViewsAreGrounded, ViewsAreShort};

/// A law, with nothing to run: the map that a module is compiled with, of its own types laid out and of
/// what the interfaces say, is grounded, where the module keeps the rules and the limit of depth against
/// interfaces whose map is; and each chain of types from one of its own on has at most 200.
pub fn views_are_grounded()
    ensures grounded { ViewsAreGrounded }
    ensures short { ViewsAreShort }
{}

/// A law, with nothing to run: what is written of a build has a spelling.
pub fn written()
    ensures { BuildsAreWritten }
{}

/// A law, with nothing to run: all that the headline takes for granted of builds follows where
/// commands by the machine's table are those of the meaning.
pub fn simulation_suffices()
    ensures { SimulationSuffices }
{}
