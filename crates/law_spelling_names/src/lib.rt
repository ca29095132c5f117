//! The names of types are short.
#![tactic(auto)]

ghost use Rattle.law_spelling_names.specs.Laws.{ReadingsAreWithin, SoundNamesAreShort};

/// A law, with nothing to run: what is read is nested in at most 200 levels, and what names its
/// types has at most 64 characters.
pub fn readings_are_within()
    ensures { ReadingsAreWithin }
{}

/// A law, with nothing to run: the names of the types of a checked module are shorter than 2^16,
/// where its text is so nested, the chains of its types have at most 200 types, and nothing that is
/// shown to it is of the module itself.
pub fn names_are_short()
    ensures { SoundNamesAreShort }
{}
