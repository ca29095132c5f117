//! The walk from a module through its imports, by their object files.

ghost use Rattle.std.specs.Prelude.{◌≡◌, ◌<◌, ◌≤◌, ◌-◌, ◌++◌, ◌∷◌, [], true, length, map, drop, take, IfOk, OnOk, Option, Some, None, MatchOption};
ghost use Rattle.std.specs.Result.{IsErrOf};
ghost use Rattle.ob_io.specs.Io.{SameFiles};
ghost use Rattle.ob_link.specs.Members.{member_of};
ghost use Rattle.ob_obj.specs.Grammar.{file as file_form};
ghost use Rattle.ob_obj.specs.declared.file.ObjFile.{ObjFile as File};
ghost use Rattle.ob_link.specs.Files.{asks, decoded, decoded_as, object_entry, object_file_name};
ghost use Rattle.ob_link.specs.Contract.{PlanHasCause, AreLoaded};
ghost use Rattle.ob_link.specs.Index.{place_from};
ghost use Rattle.ob_link.specs.Walk.{visit as visited, most_deep};
ghost use Rattle.ob_link.specs.Plan.{newest, is_there, steps};
ghost use Rattle.ob_link.specs.Walking.{entry_for, Looks, IsFound, path_of, stack, names_on, Visits, Advances, IsWalk, Begins, Walks, Stand};

use crate::fault::{LoadFault, LoadRefusal};
use crate::judging::{is_passed, judge};
use crate::loaded::Loaded;
use crate::names::Names;
use ob_io::{FolderFault, Shelf};
use ob_obj::{ObjFault, ObjFile, read_obj};
use ob_tree::{List, Name};
use std::alloc::{AllocError, Global};

/// The most bytes of an object file.
const MOST_BYTES: usize = 16_777_216;

/// The longest path for which memory is taken.
const MOST_DEEP: usize = 65_536;

/// What the folder has for a module.
#[derive(Drop)]
pub enum Looked {
    /// There is no object file.
    Missing,
    /// It has too many bytes.
    Long,
    /// It is no object file, or one of another module.
    Junk,
    Holds(ObjFile),
}

/// A module on the path of a walk.
#[derive(Drop)]
pub struct Frame {
    pub file: ObjFile,
    /// How many of its imports were visited.
    pub next: usize,
}

/// How far a walk has come.
#[derive(Drop)]
pub struct Walk {
    /// The path, the newest last.
    pub path: Vec<Frame>,
    /// The names of the modules of the path.
    pub on_path: Names,
    /// The files that the walk has left.
    pub files: List<ObjFile>,
    /// What is known of them.
    pub planned: Loaded,
}

fn held(file: ObjFile, name: &Name) -> Looked
    ensures entry { entry_for result ≡ decoded_as name.now (Some file) }
    ensures fits { file_form.fits file → IsFound name.now result }
{
    if file.head.module.as_bytes() == name.as_bytes() {
        Looked::Holds(file)
    } else {
        Looked::Junk
    }
}

// What the bytes of an object file are for a module. An `Err` is a want of memory.
fn look_at(alloc: Global, bytes: &[u8], name: &Name) -> Result<Looked, AllocError>
    ensures found { IfOk result (λ l. decoded_as name.now (decoded bytes.now) ≡ entry_for l) }
    ensures fits { IfOk result (IsFound name.now) }
{
    match read_obj(alloc, bytes) {
        Ok(file) => Ok(held(file, name)),
        Err(ObjFault::Damaged) => Ok(Looked::Junk),
        Err(ObjFault::Memory) => Err(AllocError),
    }
}

// The name of a module's object file.
fn object_file(alloc: Global, name: &Name) -> Result<Vec<u8>, AllocError>
    ensures { IfOk result (λ v. v.items ≡ object_file_name name.now) }
{
    let mut text = Vec::from_slice(alloc, name.as_bytes())?;
    text.extend_from_slice(b".Obj")?;
    Ok(text)
}

// What the folder has for a module.
fn look<F: Shelf>(alloc: Global, folder: &mut F, name: &Name) -> Result<Looked, LoadFault>
    ensures told { F.tells folder.new ≡ F.tells folder.old }
    ensures files { F.tells folder.old ≡ true → SameFiles (F.files folder.new) (F.files folder.old) }
    ensures found { F.tells folder.old ≡ true → Looks (object_entry (F.files folder.old) name.now) result }
    ensures fits { IfOk result (IsFound name.now) }
    ensures cause { PlanHasCause (F.faults folder.old) (F.faults folder.new) result }
{
    let Ok(file_name) = object_file(alloc, name) else {
        return Err(LoadFault::Memory);
    };
    let Ok(text) = str::from_utf8(&file_name) else {
        return Err(LoadFault::Memory);
    };
    match folder.read(alloc, text, MOST_BYTES) {
        Ok(None) => Ok(Looked::Missing),
        Ok(Some(bytes)) => match look_at(alloc, &bytes, name) {
            Ok(looked) => Ok(looked),
            Err(_) => Err(LoadFault::Memory),
        },
        Err(FolderFault::Long) => Ok(Looked::Long),
        Err(FolderFault::Failed) => Err(LoadFault::Folder),
        Err(FolderFault::Memory) => Err(LoadFault::Memory),
    }
}

fn is_on(path: &Names, name: &Name) -> bool
    ensures { result ≡ is_there (place_from 0 path.now name.now) }
{
    path.place(name.as_bytes()).is_some()
}

// The module at the end of the path, or this one.
fn newest_of(path: &[Frame], name: &Name) -> Name
    ensures { result ≡ newest name.now (path_of (stack path.now)) }
{
    match path {
        [.., frame] => frame.file.head.module,
        [] => *name,
    }
}

impl Frame {
    // The next import that is to be visited.
    fn next_import(&mut self) -> Option<Name>
        ensures file { self.new.file ≡ self.old.file }
        ensures next { MatchOption result ((drop self.old.next self.old.file.head.imports ≡ []) × (self.new ≡ self.old)) (λ n. drop self.old.next self.old.file.head.imports ≡ n ∷ drop self.new.next self.old.file.head.imports) }
    {
        if self.next >= self.file.head.imports.len() {
            return None;
        }
        let name = self.file.head.imports.as_slice()[self.next];
        self.next += 1;
        Some(name)
    }
}

// Puts a file on the path. An `Err` is a want of memory, or the path is at its longest.
fn enter(walk: &mut Walk, file: ObjFile, name: &Name) -> Result<(), AllocError>
    ensures path { OnOk result (walk.new.path.items ≡ walk.old.path.items ++ (record { file = file; next = 0 }) ∷ []) }
    ensures names { OnOk result (walk.new.on_path ≡ walk.old.on_path ++ name.now ∷ []) }
    ensures short { OnOk result (length walk.old.path.items < 65536) }
    ensures files { walk.new.files ≡ walk.old.files }
    ensures known { walk.new.planned ≡ walk.old.planned }
{
    if walk.path.len() >= MOST_DEEP {
        return Err(AllocError);
    }
    walk.on_path.push(name.as_bytes())?;
    walk.path.push(Frame { file, next: 0 })?;
    Ok(())
}

/// Visits a module, unless it is passed over or stands on the path.
pub fn visit<F: Shelf>(
    alloc: Global,
    loaded: &Loaded,
    folder: &mut F,
    walk: &mut Walk,
    name: &Name,
) -> Result<(), LoadFault>
    requires { IsWalk loaded.now walk.old.path.items walk.old.on_path walk.old.files walk.old.planned }
    ensures walk { OnOk result (IsWalk loaded.now walk.new.path.items walk.new.on_path walk.new.files walk.new.planned) }
    ensures told { F.tells folder.new ≡ F.tells folder.old }
    ensures files { F.tells folder.old ≡ true → SameFiles (F.files folder.new) (F.files folder.old) }
    ensures walked { F.tells folder.old ≡ true → Visits (F.files folder.old) loaded.now walk.old.path.items walk.old.files name.now walk.new.path.items walk.new.files result }
    ensures cause { PlanHasCause (F.faults folder.old) (F.faults folder.new) result }
{
    if is_passed(loaded, &walk.planned, name) {
        return Ok(());
    }
    if is_on(&walk.on_path, name) {
        let module = newest_of(&walk.path, name);
        return Err(LoadFault::Refused(LoadRefusal::Cycle { module }));
    }
    match look(alloc, folder, name)? {
        Looked::Missing => Err(LoadFault::Refused(LoadRefusal::NoObject { module: *name })),
        Looked::Long => Err(LoadFault::Refused(LoadRefusal::Limit { module: *name })),
        Looked::Junk => Err(LoadFault::Refused(LoadRefusal::Damaged { module: *name })),
        Looked::Holds(file) => match enter(walk, file, name) {
            Ok(()) => Ok(()),
            Err(_) => Err(LoadFault::Memory),
        },
    }
}

// A file leaves the path, and is known from then on. An `Err` is a want of memory.
fn keep(walk: &mut Walk, file: ObjFile) -> Result<(), AllocError>
    requires fits { file_form.fits file }
    requires some { 0 < length walk.old.on_path }
    requires few { length walk.old.planned < 255 }
    ensures path { walk.new.path.items ≡ walk.old.path.items }
    ensures names { OnOk result (walk.new.on_path ≡ take (length walk.old.on_path - 1) walk.old.on_path) }
    ensures files { OnOk result (walk.new.files ≡ walk.old.files ++ file ∷ []) }
    ensures known { OnOk result (walk.new.planned ≡ walk.old.planned ++ member_of file ∷ []) }
{
    walk.on_path.cut_last();
    walk.planned.push(&file)?;
    walk.files.push(file)
}

// A file whose imports are done leaves the path.
fn leave(alloc: Global, loaded: &Loaded, walk: &mut Walk, frame: Frame) -> Result<(), LoadFault>
    requires walk { IsWalk loaded.now (walk.old.path.items ++ frame ∷ []) walk.old.on_path walk.old.files walk.old.planned }
    requires done { drop frame.next frame.file.head.imports ≡ [] }
    ensures walk { OnOk result (IsWalk loaded.now walk.new.path.items walk.new.on_path walk.new.files walk.new.planned) }
    ensures walked { (files : _) → Advances files loaded.now (walk.old.path.items ++ frame ∷ []) walk.old.files walk.new.path.items walk.new.files result }
    ensures no_folder { IsErrOf result LoadFault.Folder → ⊥ }
{
    let Frame { file, next: _ } = frame;
    match judge(alloc, loaded, &walk.planned, &file) {
        Err(_) => Err(LoadFault::Memory),
        Ok(Some(refusal)) => Err(LoadFault::Refused(refusal)),
        Ok(None) => match keep(walk, file) {
            Ok(()) => Ok(()),
            Err(_) => Err(LoadFault::Memory),
        },
    }
}

fn put_back(path: &mut Vec<Frame>, frame: Frame) -> Result<(), AllocError>
    ensures { OnOk result (path.new.items ≡ path.old.items ++ frame ∷ []) }
{
    path.push(frame)?;
    Ok(())
}

/// Goes on at the newest module of the path: to its next import, or it leaves the path.
pub fn advance<F: Shelf>(
    alloc: Global,
    loaded: &Loaded,
    folder: &mut F,
    walk: &mut Walk,
    frame: Frame,
) -> Result<(), LoadFault>
    requires { IsWalk loaded.now (walk.old.path.items ++ frame ∷ []) walk.old.on_path walk.old.files walk.old.planned }
    ensures walk { OnOk result (IsWalk loaded.now walk.new.path.items walk.new.on_path walk.new.files walk.new.planned) }
    ensures told { F.tells folder.new ≡ F.tells folder.old }
    ensures files { F.tells folder.old ≡ true → SameFiles (F.files folder.new) (F.files folder.old) }
    ensures walked { F.tells folder.old ≡ true → Advances (F.files folder.old) loaded.now (walk.old.path.items ++ frame ∷ []) walk.old.files walk.new.path.items walk.new.files result }
    ensures cause { PlanHasCause (F.faults folder.old) (F.faults folder.new) result }
{
    let mut frame = frame;
    match frame.next_import() {
        None => leave(alloc, loaded, walk, frame),
        Some(name) => match put_back(&mut walk.path, frame) {
            Ok(()) => visit(alloc, loaded, folder, walk, &name),
            Err(_) => Err(LoadFault::Memory),
        },
    }
}

// The visit of the first module of a walk.
fn begin<F: Shelf>(
    alloc: Global,
    loaded: &Loaded,
    folder: &mut F,
    module: &Name,
) -> Result<Walk, LoadFault>
    requires { length loaded.now ≤ 255 }
    ensures walk { IfOk result (λ w. IsWalk loaded.now w.path.items w.on_path w.files w.planned) }
    ensures told { F.tells folder.new ≡ F.tells folder.old }
    ensures files { F.tells folder.old ≡ true → SameFiles (F.files folder.new) (F.files folder.old) }
    ensures begun { F.tells folder.old ≡ true → (fs : List File) → AreLoaded loaded.now fs → Begins (steps asks (object_entry (F.files folder.old)) fs) most_deep (visited (steps asks (object_entry (F.files folder.old)) fs) most_deep [] «module».now []) result }
    ensures cause { PlanHasCause (F.faults folder.old) (F.faults folder.new) result }
{
    let mut walk = Walk {
        path: Vec::new(alloc),
        on_path: Names::new(alloc),
        files: List::new(alloc),
        planned: Loaded::new(alloc),
    };
    match visit(alloc, loaded, folder, &mut walk, module) {
        Ok(()) => Ok(walk),
        Err(fault) => Err(fault),
    }
}

/// The walk from a module, behind the loaded ones.
pub fn walk_from<F: Shelf>(
    alloc: Global,
    loaded: &Loaded,
    folder: &mut F,
    module: &Name,
) -> Result<Walk, LoadFault>
    requires { length loaded.now ≤ 255 }
    ensures walk { IfOk result (λ w. w.planned ≡ map member_of w.files) }
    ensures stand { IfOk result (λ w. Stand loaded.now w.files) }
    ensures told { F.tells folder.new ≡ F.tells folder.old }
    ensures files { F.tells folder.old ≡ true → SameFiles (F.files folder.new) (F.files folder.old) }
    ensures walked { F.tells folder.old ≡ true → (fs : List File) → AreLoaded loaded.now fs → Walks (visited (steps asks (object_entry (F.files folder.old)) fs) most_deep [] «module».now []) result }
    ensures cause { PlanHasCause (F.faults folder.old) (F.faults folder.new) result }
{
    let mut walk = begin(alloc, loaded, folder, module)?;
    for _ in 0..u64::MAX {
        match walk.path.pop() {
            None => return Ok(walk),
            Some(frame) => advance(alloc, loaded, folder, &mut walk, frame)?,
        }
    }
    Err(LoadFault::Memory)
}
