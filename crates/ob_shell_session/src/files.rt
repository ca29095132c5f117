//! The files of a module, and symbol files as they are read.

ghost use Rattle.std.specs.Prelude.{◌≡◌, true, IfOk};
ghost use Rattle.ob_format.specs.Format.{whole};
ghost use Rattle.ob_sym.specs.Grammar.{face as face_form};
ghost use Rattle.ob_env_walk.specs.Walk.{symbol_name};
ghost use Rattle.ob_link.specs.Files.{object_file_name};
ghost use Rattle.ob_shell_session.specs.Does.{FolderCause};
ghost use Rattle.ob_shell_model.specs.Files.{decoded_file, sym_file};
ghost use Rattle.ob_shell_session.specs.Found.{found_as, HasSpelling};

use crate::found::SymbolFile;
use ob_io::{FolderFault, Shelf};
use ob_shell_reports::Stop;
use ob_sym::{SymFault, read_sym};
use ob_tree::Name;
use std::alloc::{AllocError, Global};

/// The most bytes of a symbol file.
const FILE_LIMIT: usize = 16_777_216;

// What the bytes of a symbol file are.
fn symbols_in(alloc: Global, bytes: &[u8]) -> Result<SymbolFile, AllocError>
    ensures found { IfOk result (λ s. decoded_file (whole face_form bytes.now) ≡ found_as s) }
    ensures fits { IfOk result HasSpelling }
{
    match read_sym(alloc, bytes) {
        Ok(face) => Ok(SymbolFile::Of(face)),
        Err(SymFault::Damaged) => Ok(SymbolFile::Damaged),
        Err(SymFault::Memory) => Err(AllocError),
    }
}

/// Reads a symbol file by its file name, of whatever module.
pub fn read_symbols<F: Shelf>(alloc: Global, folder: &mut F, name: &str) -> Result<SymbolFile, Stop>
    ensures found { F.tells folder.old ≡ true → IfOk result (λ s. sym_file (F.files folder.old) name.now ≡ found_as s) }
    ensures fits { IfOk result HasSpelling }
    ensures told { F.tells folder.new ≡ F.tells folder.old }
    ensures files { F.tells folder.old ≡ true → F.files folder.new ≡ F.files folder.old }
    ensures cause { FolderCause (F.faults folder.old) (F.faults folder.new) result }
{
    match folder.read(alloc, name, FILE_LIMIT) {
        Ok(None) => Ok(SymbolFile::Missing),
        Ok(Some(bytes)) => match symbols_in(alloc, &bytes) {
            Ok(symbols) => Ok(symbols),
            Err(_) => Err(Stop::Memory),
        },
        Err(FolderFault::Long) => Ok(SymbolFile::Long),
        Err(FolderFault::Failed) => Err(Stop::Folder),
        Err(FolderFault::Memory) => Err(Stop::Memory),
    }
}

/// The file name of a module's symbol file.
pub fn symbol_file(alloc: Global, name: &Name) -> Result<Vec<u8>, AllocError>
    ensures { IfOk result (λ v. v.items ≡ symbol_name name.now) }
{
    let mut text = Vec::from_slice(alloc, name.as_bytes())?;
    text.extend_from_slice(b".Sym")?;
    Ok(text)
}

/// The file name of a module's object file.
pub fn object_file(alloc: Global, name: &Name) -> Result<Vec<u8>, AllocError>
    ensures { IfOk result (λ v. v.items ≡ object_file_name name.now) }
{
    let mut text = Vec::from_slice(alloc, name.as_bytes())?;
    text.extend_from_slice(b".Obj")?;
    Ok(text)
}
