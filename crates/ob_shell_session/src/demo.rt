//! The line `demo`.

ghost use Rattle.std.specs.Prelude.{◌≡◌, ◌≤◌, ◌∷◌, [], true, Some, IfOk, OnOk, codes};
ghost use Rattle.ob_io.specs.Io.{SameFiles, put};
ghost use Rattle.ob_io.specs.Kept.{file_in};
ghost use Rattle.ob_env_walk.specs.Walk.{symbol_name};
ghost use Rattle.ob_demo.specs.Source.{module_name};
ghost use Rattle.ob_link.specs.Files.{Files, object_file_name};
ghost use Rattle.ob_shell_reports.specs.Prints.{SinkCause};
ghost use Rattle.ob_shell_model.specs.Bytes.{World, source_name, changed, start, command_answer, made_of, made_one, compiled_file, demo_answer, demo_made};
ghost use Rattle.ob_shell_session.specs.Does.{Shows, SaidDoes, TextDoes, MakesSo, AreFew, said_of};

use crate::commanding::do_command;
use crate::files::{object_file, symbol_file};
use itoa::Buffer;
use ob_compile_model::CompileFault;
use ob_compile_trait::{Built, Compile};
use ob_demo::source;
use ob_io::{Folder, MemFolder, Sink};
use ob_load::System;
use ob_shell_reports::{Stop, put_demo};
use ob_tree::Name;
use ob_words::Settings;
use std::alloc::{AllocError, Global};

// THE FOLDER

// Replaces a file, for which room is made first.
#[tactic(auto, using(crate::proofs::Demos::file_put))]
fn put_file(folder: &mut MemFolder, name: &str, bytes: &[u8]) -> Result<(), AllocError>
    ensures { OnOk result (SameFiles (file_in folder.new.pairs) (put (file_in folder.old.pairs) name.now bytes.now)) }
{
    folder.reserve(1, name.len() + bytes.len())?;
    match folder.replace(name, bytes) {
        Ok(()) => Ok(()),
        Err(_) => Err(AllocError),
    }
}

// Replaces the two files of a module.
#[tactic(auto, using(crate::proofs::Demos::both_put))]
fn put_both(alloc: Global, folder: &mut MemFolder, built: &Built) -> Result<(), AllocError>
    ensures { OnOk result (SameFiles (file_in folder.new.pairs) (changed (file_in folder.old.pairs) ((object_file_name built.now.face.«module», built.now.obj) ∷ (symbol_name built.now.face.«module», built.now.sym) ∷ []))) }
{
    let object = object_file(alloc, built.face.module())?;
    let symbol = symbol_file(alloc, built.face.module())?;
    let Ok(object) = str::from_utf8(&object) else {
        return Err(AllocError);
    };
    let Ok(symbol) = str::from_utf8(&symbol) else {
        return Err(AllocError);
    };
    put_file(folder, object, built.obj.as_slice())?;
    put_file(folder, symbol, built.sym.as_slice())
}

// THE MODULES

fn module_text(alloc: Global, at: u32) -> Result<Vec<u8>, AllocError>
    ensures { IfOk result (λ v. v.items ≡ module_name at) }
{
    let mut number = Buffer::new();
    let mut text = Vec::from_slice(alloc, b"D")?;
    text.extend_from_slice(number.format(at).as_bytes())?;
    Ok(text)
}

fn source_file(alloc: Global, at: u32) -> Result<Vec<u8>, AllocError>
    ensures { IfOk result (λ v. v.items ≡ source_name at) }
{
    let mut text = module_text(alloc, at)?;
    text.extend_from_slice(b".Mod")?;
    Ok(text)
}

// Compiles a file. It answers the number of the module's objects; none where it is refused.
fn make_file<C: Compile>(
    alloc: Global,
    folder: &mut MemFolder,
    compiler: &mut C,
    file: &str,
) -> Result<Option<u32>, AllocError>
    ensures makes { IfOk result (MakesSo (made_of (file_in folder.old.pairs) (compiled_file (file_in folder.old.pairs) file.now)) (file_in folder.new.pairs)) }
    ensures few { IfOk result AreFew }
{
    match compiler.compile(alloc, folder, file) {
        Ok(built) => {
            put_both(alloc, folder, &built)?;
            Ok(Some(built.face.objects().len() as u32))
        }
        Err(CompileFault::Refused(_)) => Ok(None),
        Err(CompileFault::Folder) => Err(AllocError),
        Err(CompileFault::Memory) => Err(AllocError),
    }
}

// Makes module `at` of `count`.
#[tactic(auto, using(crate::proofs::Demos::one_made))]
fn make_one<C: Compile>(
    alloc: Global,
    count: u32,
    at: u32,
    folder: &mut MemFolder,
    compiler: &mut C,
) -> Result<Option<u32>, AllocError>
    requires first { 1 ≤ at }
    requires last { at ≤ count }
    requires few { count ≤ 60 }
    ensures makes { IfOk result (MakesSo (made_one count at (file_in folder.old.pairs)) (file_in folder.new.pairs)) }
    ensures few { IfOk result AreFew }
{
    let file = source_file(alloc, at)?;
    let Ok(file) = str::from_utf8(&file) else {
        return Err(AllocError);
    };
    let text = source(alloc, count, at)?;
    put_file(folder, file, text.as_slice())?;
    let made = make_file(alloc, folder, compiler, file)?;
    Ok(made)
}

// Makes all modules of a demo, in an empty folder.
fn make_all<C: Compile>(
    alloc: Global,
    count: u32,
    folder: &mut MemFolder,
    compiler: &mut C,
) -> Result<Option<u32>, AllocError>
    requires empty { folder.old.pairs ≡ [] }
    requires few { count ≤ 60 }
    ensures { IfOk result (MakesSo (demo_made count) (file_in folder.new.pairs)) }
{
    let mut objects = 0;
    let mut at = 1;
    'modules: while at <= count {
        match make_one(alloc, count, at, folder, compiler)? {
            Some(more) => {
                objects += more;
                at += 1;
            }
            None => return Ok(None),
        }
    }
    Ok(Some(objects))
}

// THE COMMAND

fn last_module(alloc: Global, count: u32) -> Result<Name, AllocError>
    requires { count ≤ 60 }
    ensures { IfOk result (λ n. n ≡ module_name count) }
{
    let text = module_text(alloc, count)?;
    let name = Name::new(&text);
    Ok(name)
}

// Runs the command of a module. A folder in memory that has room does not fail.
fn run_command<O: Sink>(
    alloc: Global,
    settings: Settings,
    system: &mut System,
    name: &Name,
    folder: &mut MemFolder,
    out: &mut O,
) -> Result<bool, Stop>
    requires system { (files : Files) → Shows system.old files (start settings files) }
    ensures does { O.tells out.old ≡ true → SaidDoes true (O.taken out.old) (O.taken out.new) (said_of (command_answer settings (start settings (file_in folder.old.pairs)) name.now (codes "Go"))) result }
    ensures told { O.tells out.new ≡ O.tells out.old }
    ensures cause { SinkCause (O.faults out.old) (O.faults out.new) result }
{
    let command = Name::new(b"Go");
    match do_command(alloc, settings, system, folder, name, &command, out) {
        Ok(refused) => Ok(refused),
        Err(Stop::Sink) => Err(Stop::Sink),
        Err(Stop::Folder) => Err(Stop::Memory),
        Err(Stop::Memory) => Err(Stop::Memory),
    }
}

// Prints the first line of a demo, and runs the command of its last module.
fn run_behind<O: Sink>(
    alloc: Global,
    settings: Settings,
    system: &mut System,
    name: &Name,
    count: u32,
    objects: u32,
    folder: &mut MemFolder,
    out: &mut O,
) -> Result<bool, Stop>
    requires system { (files : Files) → Shows system.old files (start settings files) }
    requires named { name.now ≡ module_name count }
    ensures does { (w : World) → O.tells out.old ≡ true → TextDoes (O.taken out.old) (O.taken out.new) (demo_answer settings w count (Some (objects, file_in folder.old.pairs))) result }
    ensures told { O.tells out.new ≡ O.tells out.old }
    ensures cause { SinkCause (O.faults out.old) (O.faults out.new) result }
{
    match put_demo(count, objects, out) {
        Ok(_) => run_command(alloc, settings, system, name, folder, out),
        Err(stop) => Err(stop),
    }
}

// Runs the command of the last module in a fresh system.
fn run_last<O: Sink>(
    alloc: Global,
    settings: Settings,
    count: u32,
    objects: u32,
    folder: &mut MemFolder,
    out: &mut O,
) -> Result<bool, Stop>
    requires few { count ≤ 60 }
    requires some { 1 ≤ settings.heap }
    requires limit { settings.heap ≤ 4194304 }
    ensures does { (w : World) → O.tells out.old ≡ true → TextDoes (O.taken out.old) (O.taken out.new) (demo_answer settings w count (Some (objects, file_in folder.old.pairs))) result }
    ensures told { O.tells out.new ≡ O.tells out.old }
    ensures cause { SinkCause (O.faults out.old) (O.faults out.new) result }
{
    let Ok(name) = last_module(alloc, count) else {
        return Err(Stop::Memory);
    };
    let Ok(mut system) = System::new(alloc, settings.heap) else {
        return Err(Stop::Memory);
    };
    run_behind(
        alloc,
        settings,
        &mut system,
        &name,
        count,
        objects,
        folder,
        out,
    )
}

/// Compiles the modules of a demo in an empty folder in memory, and runs the last one's command in
/// a fresh system with these settings.
pub fn do_demo<C: Compile, O: Sink>(
    alloc: Global,
    settings: Settings,
    count: u32,
    compiler: &mut C,
    out: &mut O,
) -> Result<bool, Stop>
    requires first { 1 ≤ count }
    requires few { count ≤ 60 }
    requires some { 1 ≤ settings.heap }
    requires limit { settings.heap ≤ 4194304 }
    ensures does { (w : World) → O.tells out.old ≡ true → TextDoes (O.taken out.old) (O.taken out.new) (demo_answer settings w count (demo_made count)) result }
    ensures told { O.tells out.new ≡ O.tells out.old }
    ensures cause { SinkCause (O.faults out.old) (O.faults out.new) result }
{
    let mut folder = MemFolder::new(alloc, Vec::new(alloc));
    match make_all(alloc, count, &mut folder, compiler) {
        Ok(Some(objects)) => run_last(alloc, settings, count, objects, &mut folder, out),
        Ok(None) => Ok(true),
        Err(_) => Err(Stop::Memory),
    }
}
