//! All that the headline takes for granted of builds.
#![tactic(auto)]

pub mod law_owing;

ghost use Rattle.law_headline.specs.Promised.{Promised};
ghost use Rattle.law_headline.specs.Room.{RoomIsDeclared};

/// A law, with nothing to run. What `session`'s headline takes for granted of builds is so: a build is
/// the same against all interfaces that have the texts of its uses; what is written of it has a
/// spelling; and commands of builds that are loaded together, of whatever ages, run by the machine's
/// table as the language's meaning says of their sources.
pub fn promised()
    ensures { Promised }
{}

/// A law, with nothing to run. The words of globals that a load counts, of builds of whatever ages, are
/// those that the modules declare in their program, by the language's meaning: of variables, and of the
/// strings that are used as arrays. So a load is refused for want of room just where the declarations
/// of the loaded modules and of the new ones have none.
pub fn room_is_declared()
    ensures { RoomIsDeclared }
{}
