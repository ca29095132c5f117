//! What a text that is read declares is named by words.
#![tactic(auto)]

ghost use Rattle.law_names_read.specs.Worded.{ReadingsAreWorded};

/// A law, with nothing to run: each name that a module that is read declares is a word, and there are
/// few parameters in each heading, where the text is no longer than 32 bits count.
pub fn readings_are_worded()
    ensures { ReadingsAreWorded }
{}
