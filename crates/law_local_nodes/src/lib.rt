//! What breaks no rule has a node.
#![tactic(auto)]

ghost use Rattle.law_local_nodes.specs.Quiet.{StatementsAreThere};

/// A law, with nothing to run. Where no declaration around broke a rule, the bases of pointers are
/// held, and no guard stands around (`specs/Quiet.antt`: `IsQuiet`), statements that break no rule
/// have a node.
pub fn breaking_nothing()
    ensures { StatementsAreThere }
{}
