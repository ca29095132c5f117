//! What a folder has of the files of a module.

ghost use Rattle.std.specs.Prelude.{◌≡◌, ◌≤◌, ◌++◌, true, Some, Ok, IfOk, IsErrOf, length, map as each};
ghost use Rattle.ob_format.specs.Format.{whole};
ghost use Rattle.ob_obj.specs.Grammar.{file as object_form};
ghost use Rattle.ob_sym.specs.Grammar.{face as face_form};
ghost use Rattle.ob_env.specs.Faces.{face_of};
ghost use Rattle.ob_parse_grammar.specs.TextReading.{reading};
ghost use Rattle.ob_compile_model.specs.Compiling.{imported};
ghost use Rattle.ob_cmp.specs.Check.{symbols_of, face_found};
ghost use Rattle.ob_make.specs.Folder.{has_in, has_found, has_of, read_as, source_of, source_name};
ghost use Rattle.ob_make.specs.Answers.{MakeHasCause};
ghost use Rattle.ob_make.specs.Filing.{AnswersBy, AreWithin, IsFaceOf, bytes_seen, bytes_within, seen, sourced};

use crate::fault::MakeFault;
use ob_io::{FolderFault, Shelf};
use ob_obj::{ObjFault, ObjFile, read_obj};
use ob_parse_text::{TextFault, read_module};
use ob_sym::{SymFault, read_sym};
use ob_tree::{Import, List, Module, Name};
use ob_types::Interface;
use std::alloc::{AllocError, Global};

/// The most bytes of an object file, and of a symbol file.
const FILE_LIMIT: usize = 16_777_216;

/// The most bytes of a source.
const MOST_SOURCE: usize = 1_048_576;

/// The bytes that a folder has under a name.
#[derive(Drop)]
pub enum Bytes {
    /// There is no file.
    Absent,
    /// The file is above the limit.
    Long,
    Held(Vec<u8>),
}

/// What a folder has of a file of a module.
#[derive(Drop)]
pub enum Filed<T> {
    /// There is no file.
    Absent,
    /// The file is above the limit.
    Long,
    /// Its grammar refuses the file, or it names another module.
    Damaged,
    Holds(T),
}

fn file_name(alloc: Global, module: &Name, ending: &[u8]) -> Result<Vec<u8>, AllocError>
    ensures { IfOk result (λ v. v.items ≡ «module».now ++ ending.now) }
{
    let mut name = Vec::from_slice(alloc, module.as_bytes())?;
    name.extend_from_slice(ending)?;
    Ok(name)
}

// The bytes of the file of a module with this ending.
fn read_file<F: Shelf>(
    alloc: Global,
    folder: &mut F,
    module: &Name,
    ending: &[u8],
    limit: usize,
) -> Result<Bytes, MakeFault>
    ensures told { F.tells folder.new ≡ F.tells folder.old }
    ensures files { F.tells folder.old ≡ true → F.files folder.new ≡ F.files folder.old }
    ensures bytes { F.tells folder.old ≡ true → AnswersBy bytes_seen (bytes_within limit (F.files folder.old («module».now ++ ending.now))) result }
    ensures within { IfOk result (AreWithin limit) }
    ensures cause { MakeHasCause (F.faults folder.old) (F.faults folder.new) result }
{
    let Ok(name) = file_name(alloc, module, ending) else {
        return Err(MakeFault::Memory);
    };
    let Ok(text) = str::from_utf8(&name) else {
        return Err(MakeFault::Memory);
    };
    match folder.read(alloc, text, limit) {
        Ok(None) => Ok(Bytes::Absent),
        Ok(Some(bytes)) => Ok(Bytes::Held(bytes)),
        Err(FolderFault::Long) => Ok(Bytes::Long),
        Err(FolderFault::Failed) => Err(MakeFault::Folder),
        Err(FolderFault::Memory) => Err(MakeFault::Memory),
    }
}

fn named_face(face: Interface, module: &Name) -> Filed<Interface>
    ensures seen { face_found «module».now (Some face) ≡ seen face_of result }
    ensures of { face_form.fits face → IsFaceOf «module».now result }
{
    if module.as_bytes() == face.module.as_bytes() {
        Filed::Holds(face)
    } else {
        Filed::Damaged
    }
}

// What bytes are as the symbol file of a module.
fn as_face(alloc: Global, bytes: &[u8], module: &Name) -> Result<Filed<Interface>, MakeFault>
    ensures seen { AnswersBy (seen face_of) (face_found «module».now (whole face_form bytes.now)) result }
    ensures of { IfOk result (IsFaceOf «module».now) }
    ensures folder { IsErrOf result MakeFault.Folder → ⊥ }
{
    match read_sym(alloc, bytes) {
        Ok(face) => Ok(named_face(face, module)),
        Err(SymFault::Damaged) => Ok(Filed::Damaged),
        Err(SymFault::Memory) => Err(MakeFault::Memory),
    }
}

/// The symbol file of a module.
pub fn find_face<F: Shelf>(
    alloc: Global,
    folder: &mut F,
    module: &Name,
) -> Result<Filed<Interface>, MakeFault>
    ensures told { F.tells folder.new ≡ F.tells folder.old }
    ensures files { F.tells folder.old ≡ true → F.files folder.new ≡ F.files folder.old }
    ensures seen { F.tells folder.old ≡ true → AnswersBy (seen face_of) (symbols_of (F.files folder.old) «module».now) result }
    ensures of { IfOk result (IsFaceOf «module».now) }
    ensures cause { MakeHasCause (F.faults folder.old) (F.faults folder.new) result }
{
    let read = read_file(alloc, folder, module, b".Sym", FILE_LIMIT)?;
    match read {
        Bytes::Absent => Ok(Filed::Absent),
        Bytes::Long => Ok(Filed::Long),
        Bytes::Held(bytes) => as_face(alloc, &bytes, module),
    }
}

fn named_file(file: ObjFile, module: &Name) -> Filed<ObjFile>
    ensures { has_found «module».now (Some file) ≡ seen has_in result }
{
    if module.as_bytes() == file.head.module.as_bytes() {
        Filed::Holds(file)
    } else {
        Filed::Damaged
    }
}

// What bytes are as the object file of a module.
fn as_file(alloc: Global, bytes: &[u8], module: &Name) -> Result<Filed<ObjFile>, MakeFault>
    ensures seen { AnswersBy (seen has_in) (has_found «module».now (whole object_form bytes.now)) result }
    ensures folder { IsErrOf result MakeFault.Folder → ⊥ }
{
    match read_obj(alloc, bytes) {
        Ok(file) => Ok(named_file(file, module)),
        Err(ObjFault::Damaged) => Ok(Filed::Damaged),
        Err(ObjFault::Memory) => Err(MakeFault::Memory),
    }
}

/// The object file of a module.
pub fn find_file<F: Shelf>(
    alloc: Global,
    folder: &mut F,
    module: &Name,
) -> Result<Filed<ObjFile>, MakeFault>
    ensures told { F.tells folder.new ≡ F.tells folder.old }
    ensures files { F.tells folder.old ≡ true → F.files folder.new ≡ F.files folder.old }
    ensures seen { F.tells folder.old ≡ true → AnswersBy (seen has_in) (has_of (F.files folder.old) «module».now) result }
    ensures cause { MakeHasCause (F.faults folder.old) (F.faults folder.new) result }
{
    let read = read_file(alloc, folder, module, b".Obj", FILE_LIMIT)?;
    match read {
        Bytes::Absent => Ok(Filed::Absent),
        Bytes::Long => Ok(Filed::Long),
        Bytes::Held(bytes) => as_file(alloc, &bytes, module),
    }
}

// The module that an import names.
fn imported(import: &Import) -> Name
    ensures { result ≡ imported import.now }
{
    match import.target {
        None => import.ident.name,
        Some(target) => target.name,
    }
}

fn all_imported(alloc: Global, imports: &[Import]) -> Result<List<Name>, AllocError>
    ensures { IfOk result (λ l. l ≡ each imported imports.now) }
{
    let mut all = List::new(alloc);
    'imports: for import in imports {
        all.push(imported(import))?;
    }
    Ok(all)
}

fn named_source(
    alloc: Global,
    tree: &Module,
    module: &Name,
) -> Result<Option<List<Name>>, AllocError>
    ensures { IfOk result (λ o. read_as «module».now (Ok tree.now) ≡ sourced o) }
{
    if module.as_bytes() == tree.name.name.as_bytes() {
        let names = all_imported(alloc, tree.imports.as_slice())?;
        Ok(Some(names))
    } else {
        Ok(None)
    }
}

// What a text is as the source of a module.
fn as_source(alloc: Global, text: &[u8], module: &Name) -> Result<Option<List<Name>>, MakeFault>
    requires { length text.now ≤ 1048576 }
    ensures seen { AnswersBy sourced (read_as «module».now (reading text.now)) result }
    ensures folder { IsErrOf result MakeFault.Folder → ⊥ }
{
    match read_module(alloc, text) {
        Ok(tree) => match named_source(alloc, &tree, module) {
            Ok(source) => Ok(source),
            Err(_) => Err(MakeFault::Memory),
        },
        Err(TextFault::Scan(_)) => Ok(Some(List::new(alloc))),
        Err(TextFault::Parse(_)) => Ok(Some(List::new(alloc))),
        Err(TextFault::Memory) => Err(MakeFault::Memory),
    }
}

/// The imports in the source of a module: none where the source is no module or too long, and no list where
/// there is no source or it is of another module.
pub fn find_source<F: Shelf>(
    alloc: Global,
    folder: &mut F,
    module: &Name,
) -> Result<Option<List<Name>>, MakeFault>
    ensures told { F.tells folder.new ≡ F.tells folder.old }
    ensures files { F.tells folder.old ≡ true → F.files folder.new ≡ F.files folder.old }
    ensures seen { F.tells folder.old ≡ true → AnswersBy sourced (source_of «module».now (F.files folder.old (source_name «module».now))) result }
    ensures cause { MakeHasCause (F.faults folder.old) (F.faults folder.new) result }
{
    let read = read_file(alloc, folder, module, b".Mod", MOST_SOURCE)?;
    match read {
        Bytes::Absent => Ok(None),
        Bytes::Long => Ok(Some(List::new(alloc))),
        Bytes::Held(text) => as_source(alloc, &text, module),
    }
}
