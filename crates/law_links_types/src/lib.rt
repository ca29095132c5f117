//! The record types that checked modules name.
#![tactic(auto)]

ghost use Rattle.law_links_types.specs.Told.{ModulesRecorded};

/// A law, with nothing to run: where the types of a checked module differ in name, each record type
/// that its statements name is a record type, is what the type of the variable at hand stands for or
/// points to, or the base of a record of the module; and the bases of its records are record types
/// (`specs/Trees.antt`).
pub fn modules_are_recorded()
    ensures { ModulesRecorded }
{}
