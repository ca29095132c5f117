//! The session: all lines of a script.

ghost use Rattle.std.specs.Prelude.{◌⊎◌, ◌||◌, ◌≡◌, ◌≤◌, ◌<◌, true, [], cond, map, Some, None};
ghost use Rattle.ob_link.specs.Files.{Files};
ghost use Rattle.ob_shell_lines.specs.Lines.{line_of};
ghost use Rattle.ob_words.specs.declared.asked.Settings.{Settings as TheSettings};
ghost use Rattle.ob_words.specs.Settings.{settings_of};
ghost use Rattle.ob_shell_model.specs.Bytes.{World, answer, start};
ghost use Rattle.ob_shell_session.specs.Does.{Shows, LineDoes, Cause};
ghost use Rattle.ob_shell_model.specs.Session.{bytes, Ends};
ghost use Rattle.ob_shell_session.specs.Stand.{Pieces};
ghost use Rattle.ob_shell_session.specs.Session.{Causes, StatusIs};

use crate::line::do_line;
use ob_compile_trait::Compile;
use ob_io::{Folder, Sink, Source};
use ob_load::System;
use ob_shell_input::{Input, Next, NextFault, next_line};
use ob_shell_reports::Stop;
use ob_words::{Settings, WordsFault, settings};
use std::alloc::Global;

// Does a line, and flushes the sink.
fn do_flushed<F: Folder, C: Compile, O: Sink>(
    alloc: Global,
    settings: Settings,
    system: &mut System,
    folder: &mut F,
    compiler: &mut C,
    n: u32,
    line: &[u8],
    out: &mut O,
) -> Result<bool, Stop>
    requires some { 1 ≤ settings.heap }
    requires limit { settings.heap ≤ 4194304 }
    ensures does { (w : World) → Shows system.old (F.files folder.old) w → F.tells folder.old ≡ true → O.tells out.old ≡ true → LineDoes (O.taken out.old) (O.taken out.new) (F.files folder.old) (F.files folder.new) system.new (answer settings w n (line_of line.now)) result }
    ensures told_folder { F.tells folder.new ≡ F.tells folder.old }
    ensures told_sink { O.tells out.new ≡ O.tells out.old }
    ensures cause { Cause (O.faults out.old) (O.faults out.new) (F.faults folder.old) (F.faults folder.new) result }
{
    match do_line(alloc, settings, system, folder, compiler, n, line, out) {
        Ok(refused) => match out.flush() {
            Ok(()) => Ok(refused),
            Err(_) => Err(Stop::Sink),
        },
        Err(stop) => Err(stop),
    }
}

// Whether a line was refused, one before or this one.
fn either(before: bool, this: bool) -> bool
    ensures { result ≡ (before || this) }
{
    before || this
}

// The status of a session whose lines were all done.
fn verdict(refused: bool) -> u8
    ensures is { result ≡ cond refused 1 0 }
    ensures whole { result < 2 }
{
    if refused { 1 } else { 0 }
}

// The status of a session that was cut short.
fn status_of(stop: Stop) -> u8
    ensures is { StatusIs stop result }
    ensures low { 4 ≤ result }
    ensures high { result ≤ 6 }
{
    match stop {
        Stop::Sink => 4,
        Stop::Memory => 5,
        Stop::Folder => 6,
    }
}

// Does the lines of a script, up to the first that passes a limit.
fn run_lines<F: Folder, C: Compile, I: Source, O: Sink>(
    alloc: Global,
    settings: Settings,
    system: &mut System,
    input: &mut Input,
    folder: &mut F,
    compiler: &mut C,
    script: &mut I,
    out: &mut O,
) -> u8
    requires system { (files : Files) → Shows system.old files (start settings files) }
    requires input { input.old ≡ [] }
    requires some { 1 ≤ settings.heap }
    requires limit { settings.heap ≤ 4194304 }
    ensures ends { I.tells script.old ≡ true → F.tells folder.old ≡ true → O.tells out.old ≡ true → Ends (bytes settings (F.files folder.old)) (O.taken out.old) (O.taken out.new) (F.files folder.old) (F.files folder.new) (I.left script.old) result }
    ensures pieces { I.tells script.old ≡ true → F.tells folder.old ≡ true → O.tells out.old ≡ true → result ≡ 3 → Pieces settings (O.taken out.old) (O.taken out.new) (F.files folder.old) (I.left script.old) (I.left script.new) }
    ensures read { I.tells script.old ≡ true → result < 2 → I.left script.new ≡ [] }
    ensures causes { Causes (I.faults script.old) (I.faults script.new) (O.faults out.old) (O.faults out.new) (F.faults folder.old) (F.faults folder.new) result }
    ensures not_words { (result ≡ 2) → ⊥ }
{
    let mut line = Vec::new(alloc);
    let mut n: u32 = 1;
    let mut taken: u32 = 0;
    let mut refused = false;
    'lines: loop {
        match next_line(input, taken, &mut line, script) {
            Ok(Next::Line(count)) => {
                match do_flushed(alloc, settings, system, folder, compiler, n, &line, out) {
                    Ok(this) => {
                        refused = either(refused, this);
                        taken = count;
                        n += 1;
                    }
                    Err(stop) => return status_of(stop),
                }
            }
            Ok(Next::Last(_)) => {
                match do_flushed(alloc, settings, system, folder, compiler, n, &line, out) {
                    Ok(this) => return verdict(either(refused, this)),
                    Err(stop) => return status_of(stop),
                }
            }
            Ok(Next::End) => return verdict(refused),
            Ok(Next::Passes) => return 7,
            Err(NextFault::Failed) => return 3,
            Err(NextFault::Memory) => return 5,
        }
    }
}

// Does a script.
fn run_script<F: Folder, C: Compile, I: Source, O: Sink>(
    alloc: Global,
    settings: Settings,
    folder: &mut F,
    compiler: &mut C,
    script: &mut I,
    out: &mut O,
) -> u8
    requires some { 1 ≤ settings.heap }
    requires limit { settings.heap ≤ 4194304 }
    ensures ends { I.tells script.old ≡ true → F.tells folder.old ≡ true → O.tells out.old ≡ true → Ends (bytes settings (F.files folder.old)) (O.taken out.old) (O.taken out.new) (F.files folder.old) (F.files folder.new) (I.left script.old) result }
    ensures pieces { I.tells script.old ≡ true → F.tells folder.old ≡ true → O.tells out.old ≡ true → result ≡ 3 → Pieces settings (O.taken out.old) (O.taken out.new) (F.files folder.old) (I.left script.old) (I.left script.new) }
    ensures read { I.tells script.old ≡ true → result < 2 → I.left script.new ≡ [] }
    ensures causes { Causes (I.faults script.old) (I.faults script.new) (O.faults out.old) (O.faults out.new) (F.faults folder.old) (F.faults folder.new) result }
    ensures not_words { (result ≡ 2) → ⊥ }
{
    let Ok(mut system) = System::new(alloc, settings.heap) else {
        return 5;
    };
    let Ok(mut input) = Input::new(alloc) else {
        return 5;
    };
    run_lines(
        alloc,
        settings,
        &mut system,
        &mut input,
        folder,
        compiler,
        script,
        out,
    )
}

/// Does the lines of a script over the files of a folder, into a sink, as the words ask for it and
/// with this compiler: a session, by the bytes of files alone. The script is read by pieces of 4,096
/// bytes, and a line is done when its byte 10 has come, or the script's end. The sink is flushed
/// after each line. A line `make` compiles what is stale of a module and of what it needs, in order; one
/// that is cut short has compiled the modules before whole.
///
/// The status is 0 or 1 where all lines were done, 2 where the words are refused, 7 where a line or
/// the script is too long, and 3, 4, 5 or 6 where the script, the sink, memory or the folder cut the
/// session short.
pub fn do_all<F: Folder, C: Compile, I: Source, O: Sink>(
    alloc: Global,
    words: &[String],
    folder: &mut F,
    compiler: &mut C,
    script: &mut I,
    out: &mut O,
) -> u8
    ensures ends { (s : TheSettings) → settings_of (map (λ w. w.bytes.items) words.now) ≡ Some s → I.tells script.old ≡ true → F.tells folder.old ≡ true → O.tells out.old ≡ true → Ends (bytes s (F.files folder.old)) (O.taken out.old) (O.taken out.new) (F.files folder.old) (F.files folder.new) (I.left script.old) result }
    ensures pieces { (s : TheSettings) → settings_of (map (λ w. w.bytes.items) words.now) ≡ Some s → I.tells script.old ≡ true → F.tells folder.old ≡ true → O.tells out.old ≡ true → result ≡ 3 → Pieces s (O.taken out.old) (O.taken out.new) (F.files folder.old) (I.left script.old) (I.left script.new) }
    ensures causes { Causes (I.faults script.old) (I.faults script.new) (O.faults out.old) (O.faults out.new) (F.faults folder.old) (F.faults folder.new) result }
    ensures words { settings_of (map (λ w. w.bytes.items) words.now) ≡ None → (result ≡ 2) ⊎ (result ≡ 5) }
    ensures refused { result ≡ 2 → settings_of (map (λ w. w.bytes.items) words.now) ≡ None }
    ensures untouched { settings_of (map (λ w. w.bytes.items) words.now) ≡ None → (script.new ≡ script.old) × (out.new ≡ out.old) × (folder.new ≡ folder.old) }
    ensures read { I.tells script.old ≡ true → result < 2 → I.left script.new ≡ [] }
{
    let settings = match settings(alloc, words) {
        Ok(settings) => settings,
        Err(WordsFault::Refused) => return 2,
        Err(WordsFault::Memory) => return 5,
    };
    run_script(alloc, settings, folder, compiler, script, out)
}
