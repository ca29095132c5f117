//! Modules are the same with other interfaces around that show alike what counts.
#![tactic(auto)]

ghost use Rattle.law_local_rules.specs.Laws.{RulesAreLocal};

/// A law, with nothing to run. A module that breaks no rule against some interfaces is the same
/// checked module, without a broken rule, against others that show the same of all that counts for
/// it: of what is near it, and of its own names (`specs/Laws.antt`).
pub fn rules_are_local()
    ensures { RulesAreLocal }
{}
