//! The line of a command.

ghost use Rattle.std.specs.Prelude.{◌≡◌, true};
ghost use Rattle.ob_shell_model.specs.Bytes.{World, command_answer};
ghost use Rattle.ob_shell_session.specs.Running.{is_cut};
ghost use Rattle.ob_shell_session.specs.Does.{Shows, OneDoes, Cause};

use ob_io::{Folder, Sink};
use ob_link::LoadFault;
use ob_load::System;
use ob_machine::Outcome;
use ob_shell_reports::{Stop, put_report, refuse_load};
use ob_tree::Name;
use ob_words::Settings;
use std::alloc::Global;

fn is_cut(outcome: &Outcome) -> bool
    ensures { result ≡ is_cut outcome.now }
{
    match outcome {
        Outcome::SinkFault => true,
        Outcome::Done
        | Outcome::Trap { .. }
        | Outcome::TurnsSpent { .. }
        | Outcome::Illegal { .. } => false,
    }
}

/// Does the line of a command: loads its module, and runs it.
pub fn do_command<F: Folder, O: Sink>(
    alloc: Global,
    settings: Settings,
    system: &mut System,
    folder: &mut F,
    name: &Name,
    command: &Name,
    out: &mut O,
) -> Result<bool, Stop>
    ensures does { (w : World) → Shows system.old (F.files folder.old) w → F.tells folder.old ≡ true → O.tells out.old ≡ true → OneDoes (O.taken out.old) (O.taken out.new) (F.files folder.old) (F.files folder.new) system.new (command_answer settings w name.now command.now) result }
    ensures told_folder { F.tells folder.new ≡ F.tells folder.old }
    ensures told_sink { O.tells out.new ≡ O.tells out.old }
    ensures cause { Cause (O.faults out.old) (O.faults out.new) (F.faults folder.old) (F.faults folder.new) result }
{
    match system.load_plan(alloc, folder, name, command, settings.turns, out) {
        Ok(outcome) => {
            if is_cut(&outcome) {
                return Err(Stop::Sink);
            }
            put_report(outcome, out)
        }
        Err(LoadFault::Refused(why)) => refuse_load(name, &why, out),
        Err(LoadFault::Folder) => Err(Stop::Folder),
        Err(LoadFault::Memory) => Err(Stop::Memory),
    }
}
