//! A line of the script, by its kind.

ghost use Rattle.std.specs.Prelude.{◌≡◌, ◌≤◌, true};
ghost use Rattle.ob_shell_lines.specs.Lines.{line_of};
ghost use Rattle.ob_shell_model.specs.Bytes.{World, answer};
ghost use Rattle.ob_shell_session.specs.Does.{Shows, LineDoes, Cause};

use crate::commanding::do_command;
use crate::comparing::{do_check, do_compare, do_show};
use crate::compiling::do_compile;
use crate::demo::do_demo;
use crate::making::do_make;
use crate::saying::do_unknown;
use ob_compile_trait::Compile;
use ob_io::{Folder, Sink};
use ob_load::System;
use ob_shell_lines::{LineWords, words_of};
use ob_shell_reports::Stop;
use ob_words::Settings;
use std::alloc::Global;

/// Does the line with this number. It answers whether the line was refused, unknown or stopped.
pub fn do_line<F: Folder, C: Compile, O: Sink>(
    alloc: Global,
    settings: Settings,
    system: &mut System,
    folder: &mut F,
    compiler: &mut C,
    n: u32,
    line: &[u8],
    out: &mut O,
) -> Result<bool, Stop>
    requires some { 1 ≤ settings.heap }
    requires limit { settings.heap ≤ 4194304 }
    ensures does { (w : World) → Shows system.old (F.files folder.old) w → F.tells folder.old ≡ true → O.tells out.old ≡ true → LineDoes (O.taken out.old) (O.taken out.new) (F.files folder.old) (F.files folder.new) system.new (answer settings w n (line_of line.now)) result }
    ensures told_folder { F.tells folder.new ≡ F.tells folder.old }
    ensures told_sink { O.tells out.new ≡ O.tells out.old }
    ensures cause { Cause (O.faults out.old) (O.faults out.new) (F.faults folder.old) (F.faults folder.new) result }
{
    match words_of(line) {
        LineWords::Compile(file) => do_compile(alloc, folder, compiler, file, out),
        LineWords::Compare(old, new) => do_compare(alloc, folder, old, new, out),
        LineWords::Check(name) => do_check(alloc, folder, &name, out),
        LineWords::Show(name) => do_show(alloc, folder, &name, out),
        LineWords::Make(name) => do_make(alloc, folder, compiler, &name, out),
        LineWords::Demo(count) => do_demo(alloc, settings, count, compiler, out),
        LineWords::Command(name, command) => {
            do_command(alloc, settings, system, folder, &name, &command, out)
        }
        LineWords::Unknown => do_unknown(n, out),
        LineWords::Nothing => Ok(false),
    }
}
