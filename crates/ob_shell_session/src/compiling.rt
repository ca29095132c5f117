//! The line `compile`.

ghost use Rattle.std.specs.Prelude.{◌≡◌, ◌∷◌, [], true, false};
ghost use Rattle.ob_io.specs.Io.{HasCause};
ghost use Rattle.ob_sym.specs.Grammar.{face as face_form};
ghost use Rattle.ob_env.specs.Faces.{face_of};
ghost use Rattle.ob_env_walk.specs.Walk.{symbol_name};
ghost use Rattle.ob_cmp.specs.Verdicts.{compiled_text};
ghost use Rattle.ob_link.specs.Files.{object_file_name};
ghost use Rattle.ob_shell_reports.specs.Texts.{compiled_line};
ghost use Rattle.ob_shell_model.specs.Bytes.{World, compile_answer, compiled_in, counted};
ghost use Rattle.ob_shell_session.specs.Does.{AnswerDo, FilesDo, ChangesDo, Cause};
ghost use Rattle.ob_shell_model.specs.Files.{stood, sym_file};

use crate::counting::count_objects;
use crate::files::{object_file, read_symbols, symbol_file};
use ob_compile_model::CompileFault;
use ob_compile_trait::{Built, Compile};
use ob_io::{Failed, Folder, Sink};
use ob_shell_reports::{Counts, Stop, put_compiled, refuse_compile};
use std::alloc::Global;

// Replaces two files, one behind the other.
fn replace_both<F: Folder>(
    folder: &mut F,
    first: &str,
    bytes: &[u8],
    second: &str,
    more: &[u8],
) -> Result<(), Failed>
    ensures does { F.tells folder.old ≡ true → ChangesDo (F.files folder.old) (F.files folder.new) ((first.now, bytes.now) ∷ (second.now, more.now) ∷ []) result }
    ensures told { F.tells folder.new ≡ F.tells folder.old }
    ensures cause { HasCause (F.faults folder.old) (F.faults folder.new) result }
{
    folder.replace(first, bytes)?;
    folder.replace(second, more)
}

// Replaces the two files of a module, and prints what was counted.
fn put_files<F: Folder, O: Sink>(
    folder: &mut F,
    object: &str,
    symbol: &str,
    built: &Built,
    counts: Counts,
    out: &mut O,
) -> Result<bool, Stop>
    ensures does { F.tells folder.old ≡ true → O.tells out.old ≡ true → FilesDo (O.taken out.old) (O.taken out.new) (F.files folder.old) (F.files folder.new) ((object.now, built.now.obj) ∷ (symbol.now, built.now.sym) ∷ []) (compiled_line built.now.face.«module» counts) false result }
    ensures told_folder { F.tells folder.new ≡ F.tells folder.old }
    ensures told_sink { O.tells out.new ≡ O.tells out.old }
    ensures cause { Cause (O.faults out.old) (O.faults out.new) (F.faults folder.old) (F.faults folder.new) result }
{
    match replace_both(
        folder,
        object,
        built.obj.as_slice(),
        symbol,
        built.sym.as_slice(),
    ) {
        Ok(()) => put_compiled(built.face.module(), counts, out),
        Err(_) => Err(Stop::Folder),
    }
}

// Replaces the two files of a module, and prints how its objects stand to those of the symbol file
// that stood there.
fn put_counted<F: Folder, O: Sink>(
    alloc: Global,
    folder: &mut F,
    object: &str,
    symbol: &str,
    built: &Built,
    out: &mut O,
) -> Result<bool, Stop>
    requires { face_form.fits built.now.face }
    ensures does { F.tells folder.old ≡ true → O.tells out.old ≡ true → FilesDo (O.taken out.old) (O.taken out.new) (F.files folder.old) (F.files folder.new) ((object.now, built.now.obj) ∷ (symbol.now, built.now.sym) ∷ []) (compiled_text (stood built.now.face.«module» (sym_file (F.files folder.old) symbol.now)) (face_of built.now.face)) false result }
    ensures told_folder { F.tells folder.new ≡ F.tells folder.old }
    ensures told_sink { O.tells out.new ≡ O.tells out.old }
    ensures cause { Cause (O.faults out.old) (O.faults out.new) (F.faults folder.old) (F.faults folder.new) result }
{
    match read_symbols(alloc, folder, symbol) {
        Ok(symbols) => match count_objects(alloc, &symbols, &built.face) {
            Ok(counts) => put_files(folder, object, symbol, built, counts, out),
            Err(_) => Err(Stop::Memory),
        },
        Err(stop) => Err(stop),
    }
}

// Replaces the two files of a module that was compiled, and prints what was counted.
fn put_built<F: Folder, O: Sink>(
    alloc: Global,
    folder: &mut F,
    built: &Built,
    out: &mut O,
) -> Result<bool, Stop>
    requires { face_form.fits built.now.face }
    ensures does { F.tells folder.old ≡ true → O.tells out.old ≡ true → FilesDo (O.taken out.old) (O.taken out.new) (F.files folder.old) (F.files folder.new) ((object_file_name built.now.face.«module», built.now.obj) ∷ (symbol_name built.now.face.«module», built.now.sym) ∷ []) (counted (F.files folder.old) (face_of built.now.face)) false result }
    ensures told_folder { F.tells folder.new ≡ F.tells folder.old }
    ensures told_sink { O.tells out.new ≡ O.tells out.old }
    ensures cause { Cause (O.faults out.old) (O.faults out.new) (F.faults folder.old) (F.faults folder.new) result }
{
    let Ok(object) = object_file(alloc, built.face.module()) else {
        return Err(Stop::Memory);
    };
    let Ok(symbol) = symbol_file(alloc, built.face.module()) else {
        return Err(Stop::Memory);
    };
    let Ok(object) = str::from_utf8(&object) else {
        return Err(Stop::Memory);
    };
    let Ok(symbol) = str::from_utf8(&symbol) else {
        return Err(Stop::Memory);
    };
    put_counted(alloc, folder, object, symbol, built, out)
}

/// Compiles a file: replaces the module's object file and then its symbol file, and counts its
/// objects against the symbol file that stood there.
pub fn do_compile<F: Folder, C: Compile, O: Sink>(
    alloc: Global,
    folder: &mut F,
    compiler: &mut C,
    file: &str,
    out: &mut O,
) -> Result<bool, Stop>
    ensures does { (w : World) → F.files folder.old ≡ w.files → F.tells folder.old ≡ true → O.tells out.old ≡ true → AnswerDo (O.taken out.old) (O.taken out.new) (F.files folder.old) (F.files folder.new) (compile_answer w file.now (compiled_in w (w.files file.now))) result }
    ensures told_folder { F.tells folder.new ≡ F.tells folder.old }
    ensures told_sink { O.tells out.new ≡ O.tells out.old }
    ensures cause { Cause (O.faults out.old) (O.faults out.new) (F.faults folder.old) (F.faults folder.new) result }
{
    match compiler.compile(alloc, folder, file) {
        Ok(built) => put_built(alloc, folder, &built, out),
        Err(CompileFault::Refused(why)) => refuse_compile(file, &why, out),
        Err(CompileFault::Folder) => Err(Stop::Folder),
        Err(CompileFault::Memory) => Err(Stop::Memory),
    }
}
