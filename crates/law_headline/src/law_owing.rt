//! What is left to be seen of builds, so that commands of builds that are loaded together run by the
//! table as they are meant.

ghost use Rattle.law_headline.specs.owing_laws.Left.{LeftGives, LeftStands};

/// A law, with nothing to run: what is left (`Left`) gives all that is owed (`Owed` of law_program_image), and
/// so that builds stand in the image of their files.
pub fn left_gives()
    ensures owed { LeftGives }
    ensures stand { LeftStands }
{}
