//! The lines `compare`, `check` and `show`.

ghost use Rattle.std.specs.Prelude.{◌≡◌, ◌≤◌, true, Err};
ghost use Rattle.ob_io.specs.Io.{Rose};
ghost use Rattle.ob_sym.specs.Grammar.{face as face_form};
ghost use Rattle.ob_env_walk.specs.Walk.{symbol_name};
ghost use Rattle.ob_cmp.specs.Check.{Checked, check_of};
ghost use Rattle.ob_cmp.specs.Checking.{ChecksAs};
ghost use Rattle.ob_shell_reports.specs.Prints.{SinkCause};
ghost use Rattle.ob_shell_model.specs.Bytes.{compared, shown, check_said};
ghost use Rattle.ob_shell_session.specs.Does.{SaidDoes, Cause};
ghost use Rattle.ob_shell_model.specs.Files.{sym_file, IsOf};
ghost use Rattle.ob_shell_session.specs.Found.{found_as, HasSpelling};

use crate::files::{read_symbols, symbol_file};
use crate::found::SymbolFile;
use ob_cmp::{CheckFault, check_client, compare, show};
use ob_io::{Folder, Sink};
use ob_shell_reports::{Stop, put_compare, put_stale, refuse, tell};
use ob_tree::Name;
use ob_types::Interface;
use std::alloc::Global;

// SHOW

// Prints the text of an interface.
fn put_face<O: Sink>(alloc: Global, name: &str, face: &Interface, out: &mut O) -> Result<bool, Stop>
    requires { face_form.fits face.now }
    ensures does { SaidDoes (O.tells out.old) (O.taken out.old) (O.taken out.new) (shown name.now (IsOf face.now)) result }
    ensures told { O.tells out.new ≡ O.tells out.old }
    ensures cause { SinkCause (O.faults out.old) (O.faults out.new) result }
{
    match show(alloc, face) {
        Ok(text) => tell(&[text.as_slice()], false, out),
        Err(_) => Err(Stop::Memory),
    }
}

// Prints what a symbol file shows.
fn put_symbols<O: Sink>(
    alloc: Global,
    name: &str,
    symbols: &SymbolFile,
    out: &mut O,
) -> Result<bool, Stop>
    requires { HasSpelling symbols.now }
    ensures does { SaidDoes (O.tells out.old) (O.taken out.old) (O.taken out.new) (shown name.now (found_as symbols.now)) result }
    ensures told { O.tells out.new ≡ O.tells out.old }
    ensures cause { SinkCause (O.faults out.old) (O.faults out.new) result }
{
    match symbols {
        SymbolFile::Missing => refuse(name.as_bytes(), b"", b"", b"no interface\n", out),
        SymbolFile::Long => refuse(name.as_bytes(), b"", b"", b"too long\n", out),
        SymbolFile::Damaged => refuse(name.as_bytes(), b"", b"", b"damaged\n", out),
        SymbolFile::Of(face) => put_face(alloc, name, face, out),
    }
}

// Shows a symbol file.
fn show_file<F: Folder, O: Sink>(
    alloc: Global,
    folder: &mut F,
    name: &str,
    out: &mut O,
) -> Result<bool, Stop>
    ensures does { F.tells folder.old ≡ true → SaidDoes (O.tells out.old) (O.taken out.old) (O.taken out.new) (shown name.now (sym_file (F.files folder.old) name.now)) result }
    ensures files { F.tells folder.old ≡ true → F.files folder.new ≡ F.files folder.old }
    ensures told_folder { F.tells folder.new ≡ F.tells folder.old }
    ensures told_sink { O.tells out.new ≡ O.tells out.old }
    ensures cause { Cause (O.faults out.old) (O.faults out.new) (F.faults folder.old) (F.faults folder.new) result }
{
    match read_symbols(alloc, folder, name) {
        Ok(symbols) => put_symbols(alloc, name, &symbols, out),
        Err(stop) => Err(stop),
    }
}

/// Shows the interface in a module's symbol file.
pub fn do_show<F: Folder, O: Sink>(
    alloc: Global,
    folder: &mut F,
    name: &Name,
    out: &mut O,
) -> Result<bool, Stop>
    ensures does { F.tells folder.old ≡ true → SaidDoes (O.tells out.old) (O.taken out.old) (O.taken out.new) (shown (symbol_name name.now) (sym_file (F.files folder.old) (symbol_name name.now))) result }
    ensures files { F.tells folder.old ≡ true → F.files folder.new ≡ F.files folder.old }
    ensures told_folder { F.tells folder.new ≡ F.tells folder.old }
    ensures told_sink { O.tells out.new ≡ O.tells out.old }
    ensures cause { Cause (O.faults out.old) (O.faults out.new) (F.faults folder.old) (F.faults folder.new) result }
{
    let Ok(file) = symbol_file(alloc, name) else {
        return Err(Stop::Memory);
    };
    let Ok(text) = str::from_utf8(&file) else {
        return Err(Stop::Memory);
    };
    show_file(alloc, folder, text, out)
}

// COMPARE

// Prints how an interface differs from what another symbol file has.
fn put_between<O: Sink>(
    alloc: Global,
    old: &str,
    first: &Interface,
    new: &str,
    second: &SymbolFile,
    out: &mut O,
) -> Result<bool, Stop>
    requires first { face_form.fits first.now }
    requires second { HasSpelling second.now }
    ensures does { SaidDoes (O.tells out.old) (O.taken out.old) (O.taken out.new) (compared old.now new.now (IsOf first.now) (found_as second.now)) result }
    ensures told { O.tells out.new ≡ O.tells out.old }
    ensures cause { SinkCause (O.faults out.old) (O.faults out.new) result }
{
    match second {
        SymbolFile::Missing => refuse(new.as_bytes(), b"", b"", b"no interface\n", out),
        SymbolFile::Long => refuse(new.as_bytes(), b"", b"", b"too long\n", out),
        SymbolFile::Damaged => refuse(new.as_bytes(), b"", b"", b"damaged\n", out),
        SymbolFile::Of(second) => match compare(alloc, first, second) {
            Ok(verdicts) => put_compare(old, new, verdicts.as_slice(), out),
            Err(_) => Err(Stop::Memory),
        },
    }
}

// Compares an interface with a symbol file.
fn compare_face<F: Folder, O: Sink>(
    alloc: Global,
    folder: &mut F,
    old: &str,
    first: &Interface,
    new: &str,
    out: &mut O,
) -> Result<bool, Stop>
    requires { face_form.fits first.now }
    ensures does { F.tells folder.old ≡ true → SaidDoes (O.tells out.old) (O.taken out.old) (O.taken out.new) (compared old.now new.now (IsOf first.now) (sym_file (F.files folder.old) new.now)) result }
    ensures files { F.tells folder.old ≡ true → F.files folder.new ≡ F.files folder.old }
    ensures told_folder { F.tells folder.new ≡ F.tells folder.old }
    ensures told_sink { O.tells out.new ≡ O.tells out.old }
    ensures cause { Cause (O.faults out.old) (O.faults out.new) (F.faults folder.old) (F.faults folder.new) result }
{
    match read_symbols(alloc, folder, new) {
        Ok(second) => put_between(alloc, old, first, new, &second, out),
        Err(stop) => Err(stop),
    }
}

// Compares what a symbol file has with another symbol file.
fn compare_with<F: Folder, O: Sink>(
    alloc: Global,
    folder: &mut F,
    old: &str,
    first: &SymbolFile,
    new: &str,
    out: &mut O,
) -> Result<bool, Stop>
    requires { HasSpelling first.now }
    ensures does { F.tells folder.old ≡ true → SaidDoes (O.tells out.old) (O.taken out.old) (O.taken out.new) (compared old.now new.now (found_as first.now) (sym_file (F.files folder.old) new.now)) result }
    ensures files { F.tells folder.old ≡ true → F.files folder.new ≡ F.files folder.old }
    ensures told_folder { F.tells folder.new ≡ F.tells folder.old }
    ensures told_sink { O.tells out.new ≡ O.tells out.old }
    ensures cause { Cause (O.faults out.old) (O.faults out.new) (F.faults folder.old) (F.faults folder.new) result }
{
    match first {
        SymbolFile::Missing => refuse(old.as_bytes(), b"", b"", b"no interface\n", out),
        SymbolFile::Long => refuse(old.as_bytes(), b"", b"", b"too long\n", out),
        SymbolFile::Damaged => refuse(old.as_bytes(), b"", b"", b"damaged\n", out),
        SymbolFile::Of(face) => compare_face(alloc, folder, old, face, new, out),
    }
}

/// Compares two symbol files, of whatever modules.
pub fn do_compare<F: Folder, O: Sink>(
    alloc: Global,
    folder: &mut F,
    old: &str,
    new: &str,
    out: &mut O,
) -> Result<bool, Stop>
    ensures does { F.tells folder.old ≡ true → SaidDoes (O.tells out.old) (O.taken out.old) (O.taken out.new) (compared old.now new.now (sym_file (F.files folder.old) old.now) (sym_file (F.files folder.old) new.now)) result }
    ensures files { F.tells folder.old ≡ true → F.files folder.new ≡ F.files folder.old }
    ensures told_folder { F.tells folder.new ≡ F.tells folder.old }
    ensures told_sink { O.tells out.new ≡ O.tells out.old }
    ensures cause { Cause (O.faults out.old) (O.faults out.new) (F.faults folder.old) (F.faults folder.new) result }
{
    match read_symbols(alloc, folder, old) {
        Ok(first) => compare_with(alloc, folder, old, &first, new, out),
        Err(stop) => Err(stop),
    }
}

// CHECK

// Prints why the uses of a module are not checked.
fn refuse_check<O: Sink>(name: &Name, why: &CheckFault, out: &mut O) -> Result<bool, Stop>
    ensures does { (c : Checked) → ChecksAs c (Err why.now) → SaidDoes (O.tells out.old) (O.taken out.old) (O.taken out.new) (check_said name.now c) result }
    ensures told { O.tells out.new ≡ O.tells out.old }
    ensures later { O.faults out.old ≤ O.faults out.new }
    ensures sink { result ≡ Err Stop.Sink → Rose (O.faults out.old) (O.faults out.new) }
    ensures folder { result ≡ Err Stop.Folder → why.now ≡ CheckFault.Folder }
{
    let bytes = name.as_bytes();
    match why {
        CheckFault::NoObject => refuse(bytes, b"", bytes, b" has no object file\n", out),
        CheckFault::Damaged(module) => refuse(bytes, b"", module.as_bytes(), b" damaged\n", out),
        CheckFault::Long(module) => refuse(bytes, b"", module.as_bytes(), b" too long\n", out),
        CheckFault::Folder => Err(Stop::Folder),
        CheckFault::Memory => Err(Stop::Memory),
    }
}

/// Checks the uses of a module's object file against the present symbol files.
pub fn do_check<F: Folder, O: Sink>(
    alloc: Global,
    folder: &mut F,
    name: &Name,
    out: &mut O,
) -> Result<bool, Stop>
    ensures does { F.tells folder.old ≡ true → SaidDoes (O.tells out.old) (O.taken out.old) (O.taken out.new) (check_said name.now (check_of (F.files folder.old) name.now)) result }
    ensures files { F.tells folder.old ≡ true → F.files folder.new ≡ F.files folder.old }
    ensures told_folder { F.tells folder.new ≡ F.tells folder.old }
    ensures told_sink { O.tells out.new ≡ O.tells out.old }
    ensures cause { Cause (O.faults out.old) (O.faults out.new) (F.faults folder.old) (F.faults folder.new) result }
{
    match check_client(alloc, folder, name) {
        Ok(stale) => put_stale(name, stale.as_slice(), out),
        Err(fault) => refuse_check(name, &fault, out),
    }
}
