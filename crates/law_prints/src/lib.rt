//! A compile over files, where a use keeps a print, and a compile in the language's model, where a
//! use keeps the whole text, come to the same.
#![tactic(auto)]

ghost use Rattle.law_prints.specs.Alike.{CompilesAlike, CompilesAlikeAmong};

/// A law, with nothing to run. Where what is found for each name by prints is what is found for it by
/// texts, with the prints of its texts, and the prints tell apart what the compile compares, the
/// texts that uses of the interfaces of its walk keep and those that their objects have there: a
/// source is refused by both for the same reason, or it is by both the same checked module, which
/// shows the same, and the bytes of its two files are the same. The second clause says so where the
/// same is found for those names alone that are looked up.
pub fn compiles_alike()
    ensures all { CompilesAlike }
    ensures among { CompilesAlikeAmong }
{}
