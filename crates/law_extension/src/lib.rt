//! Interfaces that only gained objects: no use that was present and unchanged becomes absent or
//! changed.
#![tactic(auto)]

ghost use Rattle.law_extension.specs.Gained.{Extension, OnlyAdded};

/// A law, with nothing to run. Where each of some interfaces only gained objects, and more modules may
/// have come, each object that was there has the texts that it had, and their prints: so no use that
/// was present and unchanged is absent or changed. And an interface of which a comparison says nothing
/// but that objects were added has only gained them.
pub fn extension()
    ensures extension { Extension }
    ensures compared { OnlyAdded }
{}
