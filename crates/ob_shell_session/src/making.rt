//! The line `make`.

ghost use Rattle.std.specs.Prelude.{◌≡◌, ◌≤◌, ◌+◌, true, length, IfOk, Err};
ghost use Rattle.ob_io.specs.Io.{Rose};
ghost use Rattle.ob_make.specs.declared.fault.MakeFault.TheVariants as fault_is;
ghost use Rattle.ob_shell_reports.specs.declared.stop.Stop.TheVariants as stop_is;
ghost use Rattle.ob_make.specs.Folder.{source_name, seen_in, prints};
ghost use Rattle.ob_make.specs.Stale.{turn_in};
ghost use Rattle.ob_make.specs.Faces.{KeepsFaces};
ghost use Rattle.ob_cmp.specs.Check.{symbols_of};
ghost use Rattle.ob_load.specs.Standing.{Standing};
ghost use Rattle.ob_shell_reports.specs.Prints.{SinkCause};
ghost use Rattle.ob_shell_reports.specs.Texts.{refused, no_source};
ghost use Rattle.ob_shell_model.specs.Bytes.{World, maker, compile_answer, compiled_in, denied};
ghost use Rattle.ob_shell_model.specs.Making.{make_answer};
ghost use Rattle.ob_shell_session.specs.Does.{Shows, LineDoes, AnswerDo, SaidDoes, Cause, FolderCause};
ghost use Rattle.ob_shell_session.specs.Made.{rest_of_make, NoOrder, stop_at};

use crate::compiling::do_compile;
use ob_compile_trait::Compile;
use ob_io::{Folder, Sink};
use ob_make::{Faces, MakeFault, Turn, order, turn};
use ob_shell_reports::{Stop, put_made, refuse, refuse_cycle, refuse_many};
use ob_tree::Name;
use std::alloc::{AllocError, Global};

// The file name of a module's source.
fn source_file(alloc: Global, name: &Name) -> Result<Vec<u8>, AllocError>
    ensures { IfOk result (λ v. v.items ≡ source_name name.now) }
{
    let mut text = Vec::from_slice(alloc, name.as_bytes())?;
    text.extend_from_slice(b".Mod")?;
    Ok(text)
}

// Compiles the source of a module, as a line `compile` does.
fn compile_module<F: Folder, C: Compile, O: Sink>(
    alloc: Global,
    folder: &mut F,
    compiler: &mut C,
    module: &Name,
    out: &mut O,
) -> Result<bool, Stop>
    ensures does { (w : World) → F.files folder.old ≡ w.files → F.tells folder.old ≡ true → O.tells out.old ≡ true → AnswerDo (O.taken out.old) (O.taken out.new) (F.files folder.old) (F.files folder.new) (compile_answer w (source_name «module».now) (compiled_in w (w.files (source_name «module».now)))) result }
    ensures told_folder { F.tells folder.new ≡ F.tells folder.old }
    ensures told_sink { O.tells out.new ≡ O.tells out.old }
    ensures cause { Cause (O.faults out.old) (O.faults out.new) (F.faults folder.old) (F.faults folder.new) result }
{
    let Ok(name) = source_file(alloc, module) else {
        return Err(Stop::Memory);
    };
    let Ok(file) = str::from_utf8(&name) else {
        return Err(Stop::Memory);
    };
    do_compile(alloc, folder, compiler, file, out)
}

// Prints that the source of a module is missing.
fn refuse_sourceless<O: Sink>(alloc: Global, module: &Name, out: &mut O) -> Result<bool, Stop>
    ensures does { SaidDoes (O.tells out.old) (O.taken out.old) (O.taken out.new) (denied (refused (source_name «module».now) no_source)) result }
    ensures told { O.tells out.new ≡ O.tells out.old }
    ensures cause { SinkCause (O.faults out.old) (O.faults out.new) result }
{
    let Ok(file) = source_file(alloc, module) else {
        return Err(Stop::Memory);
    };
    refuse(&file, b"", b"", b"no source\n", out)
}

// Prints why there is no order.
fn refuse_order<O: Sink>(name: &Name, fault: &MakeFault, out: &mut O) -> Result<bool, Stop>
    ensures does { NoOrder (O.tells out.old) (O.taken out.old) (O.taken out.new) name.now fault.now result }
    ensures told { O.tells out.new ≡ O.tells out.old }
    ensures later { O.faults out.old ≤ O.faults out.new }
    ensures sink { result ≡ Err stop_is.Sink → Rose (O.faults out.old) (O.faults out.new) }
    ensures folder { result ≡ Err stop_is.Folder → fault.now ≡ fault_is.Folder }
{
    match fault {
        MakeFault::Cycle { module } => refuse_cycle(name, module, out),
        MakeFault::TooMany { .. } => refuse_many(name, out),
        MakeFault::Folder => Err(Stop::Folder),
        MakeFault::Memory => Err(Stop::Memory),
    }
}

// How a turn stops a line. No turn ends with a cycle, or with too many modules.
fn stop_at(fault: &MakeFault) -> Stop
    ensures is { result ≡ stop_at fault.now }
    ensures no_sink { result ≡ stop_is.Sink → ⊥ }
    ensures folder { result ≡ stop_is.Folder → fault.now ≡ fault_is.Folder }
{
    match fault {
        MakeFault::Folder => Stop::Folder,
        MakeFault::Cycle { .. } | MakeFault::TooMany { .. } | MakeFault::Memory => Stop::Memory,
    }
}

// What is done of a module at its turn.
fn turn_of<F: Folder>(
    alloc: Global,
    folder: &mut F,
    faces: &mut Faces,
    made: &Name,
    module: &Name,
) -> Result<Turn, Stop>
    requires keeps { F.tells folder.old ≡ true → KeepsFaces (symbols_of (F.files folder.old)) faces.old }
    ensures told { F.tells folder.new ≡ F.tells folder.old }
    ensures files { F.tells folder.old ≡ true → F.files folder.new ≡ F.files folder.old }
    ensures keeps { F.tells folder.old ≡ true → KeepsFaces (symbols_of (F.files folder.old)) faces.new }
    ensures turn { F.tells folder.old ≡ true → IfOk result (λ t. turn_in prints (seen_in (F.files folder.old)) made.now «module».now ≡ t) }
    ensures cause { FolderCause (F.faults folder.old) (F.faults folder.new) result }
{
    match turn(alloc, folder, faces, made, module) {
        Ok(turn) => Ok(turn),
        Err(fault) => Err(stop_at(&fault)),
    }
}

// Gives these modules their turns in a make of `made`, behind so many that were compiled, and prints at
// the end how many those are. What was read of symbol files is kept until a module is compiled.
fn do_turns<F: Folder, C: Compile, O: Sink>(
    alloc: Global,
    folder: &mut F,
    faces: &mut Faces,
    compiler: &mut C,
    made: &Name,
    modules: &[Name],
    count: u32,
    out: &mut O,
) -> Result<bool, Stop>
    requires keeps { F.tells folder.old ≡ true → KeepsFaces (symbols_of (F.files folder.old)) faces.old }
    ensures does { (w : World) → (s : Standing) → count + length modules.now ≤ 255 → Shows s (F.files folder.old) w → F.tells folder.old ≡ true → O.tells out.old ≡ true → LineDoes (O.taken out.old) (O.taken out.new) (F.files folder.old) (F.files folder.new) s (rest_of_make made.now count modules.now w) result }
    ensures told_folder { F.tells folder.new ≡ F.tells folder.old }
    ensures told_sink { O.tells out.new ≡ O.tells out.old }
    ensures cause { Cause (O.faults out.old) (O.faults out.new) (F.faults folder.old) (F.faults folder.new) result }
{
    match modules {
        [] => put_made(made, count, out),
        [module, rest @ ..] => match turn_of(alloc, folder, faces, made, module) {
            Ok(Turn::Stays) => do_turns(alloc, folder, faces, compiler, made, rest, count, out),
            Ok(Turn::Compiles) => match compile_module(alloc, folder, compiler, module, out) {
                Ok(true) => Ok(true),
                Ok(false) => {
                    *faces = Faces::new(alloc);
                    let count = count.saturating_add(1);
                    do_turns(alloc, folder, faces, compiler, made, rest, count, out)
                }
                Err(stop) => Err(stop),
            },
            Ok(Turn::LacksSource) => refuse_sourceless(alloc, module, out),
            Err(stop) => Err(stop),
        },
    }
}

/// Compiles what is stale of a module and of the modules that it needs, each behind its needs: at its turn a
/// module that is stale is compiled from its source, as a line `compile` does. It ends at the first module that
/// is refused or whose source is missing, and else prints how many modules were compiled. It is refused before
/// any turn where a module needs itself in a circle, or where there are too many modules.
pub fn do_make<F: Folder, C: Compile, O: Sink>(
    alloc: Global,
    folder: &mut F,
    compiler: &mut C,
    name: &Name,
    out: &mut O,
) -> Result<bool, Stop>
    ensures does { (w : World) → (s : Standing) → Shows s (F.files folder.old) w → F.tells folder.old ≡ true → O.tells out.old ≡ true → LineDoes (O.taken out.old) (O.taken out.new) (F.files folder.old) (F.files folder.new) s (make_answer maker name.now w) result }
    ensures told_folder { F.tells folder.new ≡ F.tells folder.old }
    ensures told_sink { O.tells out.new ≡ O.tells out.old }
    ensures cause { Cause (O.faults out.old) (O.faults out.new) (F.faults folder.old) (F.faults folder.new) result }
{
    match order(alloc, folder, name) {
        Ok(modules) => {
            let mut faces = Faces::new(alloc);
            let names = modules.as_slice();
            do_turns(alloc, folder, &mut faces, compiler, name, names, 0, out)
        }
        Err(fault) => refuse_order(name, &fault, out),
    }
}
