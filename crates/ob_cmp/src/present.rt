//! What a folder has of the files of a module.

ghost use Rattle.std.specs.Prelude.{◌≡◌, Some, true, IfOk, IsErrOf};
ghost use Rattle.ob_format.specs.Format.{whole};
ghost use Rattle.ob_obj.specs.Grammar.{file as object_form};
ghost use Rattle.ob_sym.specs.Grammar.{face as face_form};
ghost use Rattle.ob_env_walk.specs.Walk.{symbol_name};
ghost use Rattle.ob_cmp.specs.Check.{symbols_of, object_of, object_name, face_found, uses_found};
ghost use Rattle.ob_cmp.specs.Checking.{CheckHasCause, SeesFace, SeesUses, FaceFits, IsOf};

use crate::check::CheckFault;
use ob_io::{FolderFault, Shelf};
use ob_obj::{ObjFault, ObjFile, read_obj};
use ob_sym::{SymFault, read_sym};
use ob_tree::Name;
use ob_types::Interface;
use std::alloc::{AllocError, Global};

/// The most bytes of a file.
const FILE_LIMIT: usize = 16_777_216;

fn named_face(face: Interface, module: &Name) -> Result<Option<Interface>, CheckFault>
    ensures sees { SeesFace «module».now (face_found «module».now (Some face)) result }
    ensures fits { face_form.fits face → IfOk result FaceFits }
    ensures named { IfOk result (IsOf «module».now) }
    ensures folder { IsErrOf result CheckFault.Folder → ⊥ }
{
    if module.as_bytes() == face.module.as_bytes() {
        Ok(Some(face))
    } else {
        Err(CheckFault::Damaged(*module))
    }
}

// What bytes are as the symbol file of a module.
fn as_face(alloc: Global, bytes: &[u8], module: &Name) -> Result<Option<Interface>, CheckFault>
    ensures sees { SeesFace «module».now (face_found «module».now (whole face_form bytes.now)) result }
    ensures fits { IfOk result FaceFits }
    ensures named { IfOk result (IsOf «module».now) }
    ensures folder { IsErrOf result CheckFault.Folder → ⊥ }
{
    match read_sym(alloc, bytes) {
        Ok(face) => named_face(face, module),
        Err(SymFault::Damaged) => Err(CheckFault::Damaged(*module)),
        Err(SymFault::Memory) => Err(CheckFault::Memory),
    }
}

fn named_file(file: ObjFile, module: &Name) -> Result<ObjFile, CheckFault>
    ensures sees { SeesUses «module».now (uses_found «module».now (Some file)) result }
    ensures folder { IsErrOf result CheckFault.Folder → ⊥ }
{
    if module.as_bytes() == file.head.module.as_bytes() {
        Ok(file)
    } else {
        Err(CheckFault::Damaged(*module))
    }
}

// What bytes are as the object file of a module.
fn as_file(alloc: Global, bytes: &[u8], module: &Name) -> Result<ObjFile, CheckFault>
    ensures sees { SeesUses «module».now (uses_found «module».now (whole object_form bytes.now)) result }
    ensures folder { IsErrOf result CheckFault.Folder → ⊥ }
{
    match read_obj(alloc, bytes) {
        Ok(file) => named_file(file, module),
        Err(ObjFault::Damaged) => Err(CheckFault::Damaged(*module)),
        Err(ObjFault::Memory) => Err(CheckFault::Memory),
    }
}

fn symbol_file(alloc: Global, module: &Name) -> Result<Vec<u8>, AllocError>
    ensures { IfOk result (λ v. v.items ≡ symbol_name «module».now) }
{
    let mut name = Vec::from_slice(alloc, module.as_bytes())?;
    name.extend_from_slice(b".Sym")?;
    Ok(name)
}

fn object_file(alloc: Global, module: &Name) -> Result<Vec<u8>, AllocError>
    ensures { IfOk result (λ v. v.items ≡ object_name «module».now) }
{
    let mut name = Vec::from_slice(alloc, module.as_bytes())?;
    name.extend_from_slice(b".Obj")?;
    Ok(name)
}

/// The interface in the symbol file of a module; none where there is no file.
pub fn find_face<F: Shelf>(
    alloc: Global,
    folder: &mut F,
    module: &Name,
) -> Result<Option<Interface>, CheckFault>
    ensures told { F.tells folder.new ≡ F.tells folder.old }
    ensures files { F.tells folder.old ≡ true → F.files folder.new ≡ F.files folder.old }
    ensures sees { F.tells folder.old ≡ true → SeesFace «module».now (symbols_of (F.files folder.old) «module».now) result }
    ensures fits { IfOk result FaceFits }
    ensures named { IfOk result (IsOf «module».now) }
    ensures cause { CheckHasCause (F.faults folder.old) (F.faults folder.new) result }
{
    let Ok(name) = symbol_file(alloc, module) else {
        return Err(CheckFault::Memory);
    };
    let Ok(text) = str::from_utf8(&name) else {
        return Err(CheckFault::Memory);
    };
    match folder.read(alloc, text, FILE_LIMIT) {
        Ok(None) => Ok(None),
        Ok(Some(bytes)) => as_face(alloc, &bytes, module),
        Err(FolderFault::Long) => Err(CheckFault::Long(*module)),
        Err(FolderFault::Failed) => Err(CheckFault::Folder),
        Err(FolderFault::Memory) => Err(CheckFault::Memory),
    }
}

/// The object file of a module.
pub fn find_file<F: Shelf>(
    alloc: Global,
    folder: &mut F,
    module: &Name,
) -> Result<ObjFile, CheckFault>
    ensures told { F.tells folder.new ≡ F.tells folder.old }
    ensures files { F.tells folder.old ≡ true → F.files folder.new ≡ F.files folder.old }
    ensures sees { F.tells folder.old ≡ true → SeesUses «module».now (object_of (F.files folder.old) «module».now) result }
    ensures cause { CheckHasCause (F.faults folder.old) (F.faults folder.new) result }
{
    let Ok(name) = object_file(alloc, module) else {
        return Err(CheckFault::Memory);
    };
    let Ok(text) = str::from_utf8(&name) else {
        return Err(CheckFault::Memory);
    };
    match folder.read(alloc, text, FILE_LIMIT) {
        Ok(None) => Err(CheckFault::NoObject),
        Ok(Some(bytes)) => as_file(alloc, &bytes, module),
        Err(FolderFault::Long) => Err(CheckFault::Long(*module)),
        Err(FolderFault::Failed) => Err(CheckFault::Folder),
        Err(FolderFault::Memory) => Err(CheckFault::Memory),
    }
}
