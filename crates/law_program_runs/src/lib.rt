//! That all commands of a session run by the table as they are meant: builds that are loaded one
//! behind the other, their bodies in turn, and the command.
#![tactic(auto)]

ghost use Rattle.law_program_runs.specs.Laws.{CommandsFollow};

/// A law, with nothing to run: each command that a plan lets come, one behind the other, ends by the
/// table as it ends by the meaning of the loaded sources, with the same text and the same modules
/// loaded, and the words left stand for the system left. Premise is what is asked of builds
/// (`specs/Builds.antt`: `BuildsStand`): that their program stands in the image of their files as the
/// law of simulation for one program asks for it, that each file has the words of its module's
/// globals, and that types and procedures stay what they are where one more module is behind.
pub fn commands_follow()
    ensures { CommandsFollow }
{}
