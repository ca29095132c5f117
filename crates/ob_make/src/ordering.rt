//! The order in which modules have their turns.

ghost use Rattle.std.specs.Prelude.{◌≡◌, ◌+◌, suc, [], ◌∷◌, ◌++◌, true, nat_le, length, reverse, Ok, OnOk, IsErrOf};
ghost use Rattle.ob_link.specs.Walk.{has, visit as visited, enters, all_in_turn};
ghost use Rattle.ob_make.specs.Order.{order as the_order, steps, newest, met_if};
ghost use Rattle.ob_make.specs.Folder.{seen_in};
ghost use Rattle.ob_make.specs.Answers.{OrdersAs, MakeHasCause};
ghost use Rattle.ob_make.specs.Walking.{Goes};

use crate::fault::MakeFault;
use crate::needs::needs_of;
use ob_io::Shelf;
use ob_tree::{List, Name};
use std::alloc::Global;

/// The most modules that a walk meets.
const MOST_MODULES: usize = 255;

fn has(names: &[Name], name: &Name) -> bool
    ensures { result ≡ has name.now names.now }
{
    let mut rest = names;
    while let [first, more @ ..] = rest {
        if name.as_bytes() == first.as_bytes() {
            return true;
        }
        rest = more;
    }
    false
}

// The newest of the path, which has it last; the module itself where it is the first.
fn newest(path: &[Name], name: &Name) -> Name
    ensures { result ≡ newest name.now (reverse path.now) }
{
    if path.is_empty() {
        return *name;
    }
    path[path.len() - 1]
}

fn has_room(left: &[Name], path: &[Name]) -> bool
    ensures { result ≡ nat_le (suc (length left.now + length path.now)) 255 }
{
    left.len() < MOST_MODULES && path.len() < MOST_MODULES - left.len()
}

// Leaves a module.
fn leave(left: &mut List<Name>, name: &Name) -> Result<(), MakeFault>
    ensures goes { Goes (Ok (left.old ++ name.now ∷ [])) left.new result }
    ensures folder { IsErrOf result MakeFault.Folder → ⊥ }
{
    if left.push(*name).is_err() {
        return Err(MakeFault::Memory);
    }
    Ok(())
}

// Visits a module, unless the walk has left it or it stands on the path.
#[cycle(visits)]
#[tactic(auto, using(crate::proofs::Visits::none_deep, crate::proofs::Visits::passed, crate::proofs::Visits::circled_on, crate::proofs::Visits::entered_on))]
fn visit<F: Shelf>(
    alloc: Global,
    folder: &mut F,
    deep: u32,
    path: &mut Vec<Name>,
    name: &Name,
    left: &mut List<Name>,
) -> Result<(), MakeFault>
    ensures told { F.tells folder.new ≡ F.tells folder.old }
    ensures files { F.tells folder.old ≡ true → F.files folder.new ≡ F.files folder.old }
    ensures path { OnOk result (path.new.items ≡ path.old.items) }
    ensures cause { MakeHasCause (F.faults folder.old) (F.faults folder.new) result }
    ensures walked { F.tells folder.old ≡ true → Goes (visited (steps (seen_in (F.files folder.old))) deep (reverse path.old.items) name.now left.old) left.new result }
{
    if deep == 0 {
        return Err(MakeFault::Cycle {
            module: newest(path, name),
        });
    }
    if has(left.as_slice(), name) {
        return Ok(());
    }
    if has(path, name) {
        return Err(MakeFault::Cycle {
            module: newest(path, name),
        });
    }
    enter(alloc, folder, deep - 1, path, name, left)
}

// Enters a module: its needs first, each with its own, and then itself.
#[cycle(visits)]
fn enter<F: Shelf>(
    alloc: Global,
    folder: &mut F,
    deep: u32,
    path: &mut Vec<Name>,
    name: &Name,
    left: &mut List<Name>,
) -> Result<(), MakeFault>
    ensures told { F.tells folder.new ≡ F.tells folder.old }
    ensures files { F.tells folder.old ≡ true → F.files folder.new ≡ F.files folder.old }
    ensures path { OnOk result (path.new.items ≡ path.old.items) }
    ensures cause { MakeHasCause (F.faults folder.old) (F.faults folder.new) result }
    ensures walked { F.tells folder.old ≡ true → Goes (enters (steps (seen_in (F.files folder.old))) (visited (steps (seen_in (F.files folder.old))) deep (name.now ∷ reverse path.old.items)) (met_if (nat_le (suc (length left.old + length (reverse path.old.items))) 255) name.now) left.old) left.new result }
{
    if has_room(left.as_slice(), path) {
        let needs = needs_of(alloc, folder, name)?;
        match below(alloc, folder, deep, path, name, needs.as_slice(), left) {
            Ok(()) => leave(left, name),
            Err(fault) => Err(fault),
        }
    } else {
        Err(MakeFault::TooMany { count: 256 })
    }
}

// Visits the needs of a module that now stands on the path.
#[cycle(visits)]
fn below<F: Shelf>(
    alloc: Global,
    folder: &mut F,
    deep: u32,
    path: &mut Vec<Name>,
    name: &Name,
    needs: &[Name],
    left: &mut List<Name>,
) -> Result<(), MakeFault>
    ensures told { F.tells folder.new ≡ F.tells folder.old }
    ensures files { F.tells folder.old ≡ true → F.files folder.new ≡ F.files folder.old }
    ensures path { OnOk result (path.new.items ≡ path.old.items) }
    ensures cause { MakeHasCause (F.faults folder.old) (F.faults folder.new) result }
    ensures walked { F.tells folder.old ≡ true → Goes (all_in_turn (visited (steps (seen_in (F.files folder.old))) deep (name.now ∷ reverse path.old.items)) needs.now left.old) left.new result }
{
    if path.push(*name).is_err() {
        return Err(MakeFault::Memory);
    }
    visit_all(alloc, folder, deep, path, needs, left)?;
    path.pop();
    Ok(())
}

// Visits each module of a list in turn.
#[cycle(visits)]
fn visit_all<F: Shelf>(
    alloc: Global,
    folder: &mut F,
    deep: u32,
    path: &mut Vec<Name>,
    names: &[Name],
    left: &mut List<Name>,
) -> Result<(), MakeFault>
    ensures told { F.tells folder.new ≡ F.tells folder.old }
    ensures files { F.tells folder.old ≡ true → F.files folder.new ≡ F.files folder.old }
    ensures path { OnOk result (path.new.items ≡ path.old.items) }
    ensures cause { MakeHasCause (F.faults folder.old) (F.faults folder.new) result }
    ensures walked { F.tells folder.old ≡ true → Goes (all_in_turn (visited (steps (seen_in (F.files folder.old))) deep (reverse path.old.items)) names.now left.old) left.new result }
{
    let mut rest = names;
    while let [name, more @ ..] = rest {
        visit(alloc, folder, deep, path, name, left)?;
        rest = more;
    }
    Ok(())
}

/// The modules that a make of `module` gives a turn, each behind its needs, `module` last.
///
/// It answers `Cycle` exactly where a need stands on the path to it, and `TooMany` exactly where the walk
/// meets a 256th module, whichever comes first; `Folder` only where the folder failed and its count of
/// faults rose. The files stay as they are.
pub fn order<F: Shelf>(
    alloc: Global,
    folder: &mut F,
    module: &Name,
) -> Result<List<Name>, MakeFault>
    ensures told { F.tells folder.new ≡ F.tells folder.old }
    ensures files { F.tells folder.old ≡ true → F.files folder.new ≡ F.files folder.old }
    ensures order { F.tells folder.old ≡ true → OrdersAs (the_order (seen_in (F.files folder.old)) «module».now) result }
    ensures cause { MakeHasCause (F.faults folder.old) (F.faults folder.new) result }
{
    let mut path = Vec::new(alloc);
    let mut left = List::new(alloc);
    visit(alloc, folder, 257, &mut path, module, &mut left)?;
    Ok(left)
}
