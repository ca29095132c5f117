//! What checked modules name of other modules.
#![tactic(auto)]

ghost use Rattle.law_links_names.specs.Mentions.{ModulesMention};

/// A law, with nothing to run: all variables and procedures of other modules that the statements of
/// a checked module name, its body's and its procedures', are mentioned in its text, are shown as
/// variables and procedures, and are not of Out.
pub fn modules_mention()
    ensures { ModulesMention }
{}
