//! Locality: a valid build is the same against all interfaces that have the texts of its uses.
#![tactic(auto)]

ghost use Rattle.ob_builds.specs.Local.{Locality};

/// A law, with nothing to run. A valid build whose uses have the same texts in other interfaces keeps
/// the rules against those too, with the same checked module, interface, uses and code.
pub fn locality_holds()
    ensures { Locality }
{}
