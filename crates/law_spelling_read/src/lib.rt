//! The strings in a module that is read are of characters.
//!
//! The places of FOR and CASE in a module that is read.
//!
//! The places and the strings in modules that are read.
#![tactic(auto)]

ghost use Rattle.law_spelling_read.specs.Laws.{ReadingsAreSpelled};
ghost use Rattle.law_spelling_read.specs.Placed.{PlacesRise};
ghost use Rattle.law_spelling_read.specs.PlacedLaws.{ReadingsArePlaced};

/// A law, with nothing to run: the strings in a module that is read are of characters of 8 bits.
pub fn strings()
    ensures { ReadingsAreSpelled }
{}

/// A law, with nothing to run: the places of FOR and CASE in each body of a module that is read
/// rise, so that they differ.
pub fn places()
    ensures { PlacesRise }
{}

/// A law, with nothing to run: the places in a module that is read from a text of fewer than
/// 2^30 characters are numbers of 32 bits, and its strings are short and of characters.
pub fn readings_are_placed()
    ensures { ReadingsArePlaced }
{}
