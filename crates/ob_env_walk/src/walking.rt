//! The walk through the imports of a module, depth first.

ghost use Rattle.std.specs.Prelude.{◌≡◌, ◌<◌, ◌∷◌, [], true, ◌||◌, OnOk, Option, reverse, bytes_eq, length, Some, IfOk, IsErrOf};
ghost use Rattle.std.specs.List.{list_any};
ghost use Rattle.ob_format.specs.Format.{whole};
ghost use Rattle.ob_sym.specs.Grammar.{face as face_form};
ghost use Rattle.ob_env_walk.specs.Walk.{symbol_entry, symbol_name, named_face, is_among, is_passed_over, importer_of, through, entering, visit as visiting, walk as walking};
ghost use Rattle.ob_env.specs.Faces.{faces_of};
ghost use Rattle.ob_env.specs.Found.{CarryPrints};
ghost use Rattle.ob_env_walk.specs.declared.walking.WalkStop.TheVariants as stop;
ghost use Rattle.ob_env_walk.specs.Walking.{Goes, Comes, Looks, Carries, CarriesAll, WalkHasCause, entry_of};

use ob_env_files::{SymbolFile, SymbolReader};
use ob_io::{FolderFault, Shelf};
use ob_sym::SymFault;
use ob_tree::{List, Name};
use std::alloc::{AllocError, Global};

/// What was found for a module.
#[derive(Drop)]
pub enum Looked {
    /// There is no symbol file.
    Missing,
    /// It is too long, no symbol file, or that of another module.
    Junk,
    Holds(SymbolFile),
}

/// Why a walk of imports ended early.
#[derive(Drop)]
pub enum WalkStop {
    NoInterface(Name),
    Damaged(Name),
    /// The importer of a module that stands on the path.
    Cycle(Name),
    /// There are more than 255 modules.
    TooMany,
    /// The folder failed.
    Folder,
    /// Memory was wanting.
    Memory,
}

fn is_on(path: &[Name], m: &Name) -> bool
    ensures { result ≡ is_among m.now path.now }
{
    let mut rest = path;
    while let [first, more @ ..] = rest {
        if m.as_bytes() == first.as_bytes() {
            return true;
        }
        rest = more;
    }
    false
}

fn is_left(left: &[SymbolFile], m: &Name) -> bool
    ensures { result ≡ list_any (λ f. bytes_eq m.now f.«module») (faces_of left.now) }
{
    let mut rest = left;
    while let [first, more @ ..] = rest {
        if m.as_bytes() == first.module().as_bytes() {
            return true;
        }
        rest = more;
    }
    false
}

fn may_pass(left: &[SymbolFile], m: &Name) -> bool
    ensures { result ≡ is_passed_over m.now (faces_of left.now) }
{
    m.as_bytes() == b"Out".as_slice() || m.as_bytes() == b"SYSTEM".as_slice() || is_left(left, m)
}

// The module at the head of the path.
fn last_of(path: &[Name]) -> Name
    requires { 0 < length path.now }
    ensures { result ≡ importer_of (reverse path.now) }
{
    path[path.len() - 1]
}

fn held(face: SymbolFile, m: &Name) -> Looked
    ensures entry { entry_of result ≡ named_face m.now (Some face) }
    ensures carried { CarriesAll face → Carries result }
{
    if m.as_bytes() == face.module().as_bytes() {
        Looked::Holds(face)
    } else {
        Looked::Junk
    }
}

// What the bytes of a symbol file are for a module.
#[tactic(auto, using(crate::proofs::Carried::read_carries))]
fn look_at<R: SymbolReader>(
    alloc: Global,
    reader: &mut R,
    bytes: &[u8],
    m: &Name,
) -> Result<Looked, WalkStop>
    ensures looks { Looks (named_face m.now (whole face_form bytes.now)) result }
    ensures carried { IfOk result Carries }
    ensures folder { IsErrOf result stop.Folder → ⊥ }
{
    match reader.read(alloc, m, bytes) {
        Ok(face) => Ok(held(face, m)),
        Err(SymFault::Damaged) => Ok(Looked::Junk),
        Err(SymFault::Memory) => Err(WalkStop::Memory),
    }
}

/// The most bytes of a symbol file.
const FILE_LIMIT: usize = 16_777_216;

// The name of a module's symbol file.
fn symbol_file(alloc: Global, m: &Name) -> Result<Vec<u8>, AllocError>
    ensures { IfOk result (λ v. v.items ≡ symbol_name m.now) }
{
    let mut name = Vec::from_slice(alloc, m.as_bytes())?;
    name.extend_from_slice(b".Sym")?;
    Ok(name)
}

// What the folder has for a module.
fn look<F: Shelf, R: SymbolReader>(
    alloc: Global,
    folder: &mut F,
    reader: &mut R,
    m: &Name,
) -> Result<Looked, WalkStop>
    ensures told { F.tells folder.new ≡ F.tells folder.old }
    ensures files { F.tells folder.old ≡ true → F.files folder.new ≡ F.files folder.old }
    ensures found { F.tells folder.old ≡ true → Looks (symbol_entry (F.files folder.old) m.now) result }
    ensures carried { IfOk result Carries }
    ensures cause { WalkHasCause (F.faults folder.old) (F.faults folder.new) result }
{
    let Ok(name) = symbol_file(alloc, m) else {
        return Err(WalkStop::Memory);
    };
    let Ok(text) = str::from_utf8(&name) else {
        return Err(WalkStop::Memory);
    };
    match folder.read(alloc, text, FILE_LIMIT) {
        Ok(None) => Ok(Looked::Missing),
        Ok(Some(bytes)) => look_at(alloc, reader, &bytes, m),
        Err(FolderFault::Long) => Ok(Looked::Junk),
        Err(FolderFault::Failed) => Err(WalkStop::Folder),
        Err(FolderFault::Memory) => Err(WalkStop::Memory),
    }
}

// Visits a module, unless it is passed over or stands on the path.
#[cycle(visits)]
#[tactic(auto, using(crate::proofs::Visits::passed, crate::proofs::Visits::circled, crate::proofs::Visits::entered_on))]
fn visit<F: Shelf, R: SymbolReader>(
    alloc: Global,
    folder: &mut F,
    reader: &mut R,
    steps: u32,
    path: &mut Vec<Name>,
    m: &Name,
    left: &mut List<SymbolFile>,
) -> Result<(), WalkStop>
    requires steps { 0 < steps }
    requires path { 0 < length path.old.items }
    ensures told { F.tells folder.new ≡ F.tells folder.old }
    ensures files { F.tells folder.old ≡ true → F.files folder.new ≡ F.files folder.old }
    ensures path { OnOk result (path.new.items ≡ path.old.items) }
    ensures carried { OnOk result (CarryPrints left.old → CarryPrints left.new) }
    ensures cause { WalkHasCause (F.faults folder.old) (F.faults folder.new) result }
    ensures walked { F.tells folder.old ≡ true → Goes (visiting (symbol_entry (F.files folder.old)) steps (reverse path.old.items) m.now (faces_of left.old)) left.new result }
{
    if may_pass(left.as_slice(), m) {
        return Ok(());
    }
    if is_on(path, m) {
        return Err(WalkStop::Cycle(last_of(path)));
    }
    enter(alloc, folder, reader, steps - 1, path, m, left)
}

// Enters a module: its imports first, each with its own, and then itself.
#[cycle(visits)]
#[tactic(auto, using(crate::proofs::Carried::one_more_carries))]
fn enter<F: Shelf, R: SymbolReader>(
    alloc: Global,
    folder: &mut F,
    reader: &mut R,
    steps: u32,
    path: &mut Vec<Name>,
    m: &Name,
    left: &mut List<SymbolFile>,
) -> Result<(), WalkStop>
    ensures told { F.tells folder.new ≡ F.tells folder.old }
    ensures files { F.tells folder.old ≡ true → F.files folder.new ≡ F.files folder.old }
    ensures path { OnOk result (path.new.items ≡ path.old.items) }
    ensures carried { OnOk result (CarryPrints left.old → CarryPrints left.new) }
    ensures cause { WalkHasCause (F.faults folder.old) (F.faults folder.new) result }
    ensures walked { F.tells folder.old ≡ true → Goes (entering (symbol_entry (F.files folder.old)) (through (visiting (symbol_entry (F.files folder.old)) steps (m.now ∷ reverse path.old.items))) (reverse path.old.items) m.now (faces_of left.old)) left.new result }
{
    match look(alloc, folder, reader, m)? {
        Looked::Missing => Err(WalkStop::NoInterface(*m)),
        Looked::Junk => Err(WalkStop::Damaged(*m)),
        Looked::Holds(face) => {
            if left.len() > 255 || left.len() + path.len() > 255 {
                return Err(WalkStop::TooMany);
            }
            below(alloc, folder, reader, steps, path, m, face.imports(), left)?;
            if left.push(face).is_err() {
                return Err(WalkStop::Memory);
            }
            Ok(())
        }
    }
}

// Visits the imports of a module that now stands on the path.
#[cycle(visits)]
fn below<F: Shelf, R: SymbolReader>(
    alloc: Global,
    folder: &mut F,
    reader: &mut R,
    steps: u32,
    path: &mut Vec<Name>,
    m: &Name,
    imports: &[Name],
    left: &mut List<SymbolFile>,
) -> Result<(), WalkStop>
    ensures told { F.tells folder.new ≡ F.tells folder.old }
    ensures files { F.tells folder.old ≡ true → F.files folder.new ≡ F.files folder.old }
    ensures path { OnOk result (path.new.items ≡ path.old.items) }
    ensures carried { OnOk result (CarryPrints left.old → CarryPrints left.new) }
    ensures cause { WalkHasCause (F.faults folder.old) (F.faults folder.new) result }
    ensures walked { F.tells folder.old ≡ true → Goes (through (visiting (symbol_entry (F.files folder.old)) steps (m.now ∷ reverse path.old.items)) imports.now (faces_of left.old)) left.new result }
{
    if path.push(*m).is_err() {
        return Err(WalkStop::Memory);
    }
    visit_all(alloc, folder, reader, steps, path, imports, left)?;
    path.pop();
    Ok(())
}

// Visits each module of a list in turn.
#[cycle(visits)]
fn visit_all<F: Shelf, R: SymbolReader>(
    alloc: Global,
    folder: &mut F,
    reader: &mut R,
    steps: u32,
    path: &mut Vec<Name>,
    imports: &[Name],
    left: &mut List<SymbolFile>,
) -> Result<(), WalkStop>
    requires { 0 < length path.old.items }
    ensures told { F.tells folder.new ≡ F.tells folder.old }
    ensures files { F.tells folder.old ≡ true → F.files folder.new ≡ F.files folder.old }
    ensures path { OnOk result (path.new.items ≡ path.old.items) }
    ensures carried { OnOk result (CarryPrints left.old → CarryPrints left.new) }
    ensures cause { WalkHasCause (F.faults folder.old) (F.faults folder.new) result }
    ensures walked { F.tells folder.old ≡ true → Goes (through (visiting (symbol_entry (F.files folder.old)) steps (reverse path.old.items)) imports.now (faces_of left.old)) left.new result }
{
    let mut rest = imports;
    while let [first, more @ ..] = rest {
        if steps == 0 {
            return Err(WalkStop::TooMany);
        }
        visit(alloc, folder, reader, steps, path, first, left)?;
        rest = more;
    }
    Ok(())
}

/// The interfaces of the modules that are reached from these imports, in the order in which the
/// walk leaves them, each object with the prints of its texts; or the first answer of the walk. The
/// folder's files stay as they are, and each symbol file is read once, by the reader. `Folder` comes
/// only where the folder's count of faults rose.
pub fn walk<F: Shelf, R: SymbolReader>(
    alloc: Global,
    folder: &mut F,
    reader: &mut R,
    root: &Name,
    imports: &[Name],
) -> Result<List<SymbolFile>, WalkStop>
    ensures told { F.tells folder.new ≡ F.tells folder.old }
    ensures files { F.tells folder.old ≡ true → F.files folder.new ≡ F.files folder.old }
    ensures walked { F.tells folder.old ≡ true → Comes (walking (symbol_entry (F.files folder.old)) root.now imports.now) result }
    ensures carried { IfOk result CarryPrints }
    ensures cause { WalkHasCause (F.faults folder.old) (F.faults folder.new) result }
{
    let mut path = Vec::new(alloc);
    if path.push(*root).is_err() {
        return Err(WalkStop::Memory);
    }
    let mut left = List::new(alloc);
    visit_all(alloc, folder, reader, 257, &mut path, imports, &mut left)?;
    Ok(left)
}
