//! The needs of a module.

ghost use Rattle.std.specs.Prelude.{◌≡◌, ◌++◌, [], ◌∷◌, true, map as each, if◌then◌else◌, IfOk, OnOk};
ghost use Rattle.std.specs.List.{filter};
ghost use Rattle.ob_env.specs.Faces.{face_of, wanted_of};
ghost use Rattle.ob_make.specs.Seen.{is_needed, symbol_needs, source_needs};
ghost use Rattle.ob_make.specs.Folder.{has_in, seen_in};
ghost use Rattle.ob_make.specs.Answers.{AnswersAs, MakeHasCause};
ghost use Rattle.ob_make.specs.Filing.{seen, sourced};
ghost use Rattle.ob_make.specs.Walking.{begins, singled, object_lean, lean_needs};

use crate::fault::MakeFault;
use crate::files::{Filed, find_face, find_file, find_source};
use ob_io::Shelf;
use ob_obj::ObjFile;
use ob_tree::{List, Name};
use ob_types::{Interface, Use};
use std::alloc::{AllocError, Global};

fn is_needed(module: &Name, name: &Name) -> bool
    ensures { result ≡ is_needed «module».now name.now }
{
    let is_itself = name.as_bytes() == module.as_bytes();
    let is_out = name.as_bytes() == b"Out".as_slice();
    !is_itself && !is_out
}

fn add_need(needs: &mut List<Name>, module: &Name, name: &Name) -> Result<(), AllocError>
    ensures { OnOk result (needs.new ≡ needs.old ++ filter (is_needed «module».now) (name.now ∷ [])) }
{
    if is_needed(module, name) {
        needs.push(*name)?;
    }
    Ok(())
}

fn add_needs(needs: &mut List<Name>, module: &Name, names: &[Name]) -> Result<(), AllocError>
    ensures { OnOk result (needs.new ≡ needs.old ++ filter (is_needed «module».now) names.now) }
{
    let mut rest = names;
    while let [name, more @ ..] = rest {
        add_need(needs, module, name)?;
        rest = more;
    }
    Ok(())
}

fn begins_with(uses: &[Use], name: &Name) -> bool
    ensures { result ≡ begins name.now (each (λ w. w.object.«module») (each wanted_of uses.now)) }
{
    match uses {
        [] => false,
        [of, ..] => name.as_bytes() == of.object.module.as_bytes(),
    }
}

fn add_unless(
    needs: &mut List<Name>,
    module: &Name,
    name: &Name,
    again: bool,
) -> Result<(), AllocError>
    ensures { OnOk result (needs.new ≡ needs.old ++ filter (is_needed «module».now) (if again then [] else name.now ∷ [])) }
{
    if again {
        return Ok(());
    }
    add_need(needs, module, name)
}

// The modules of the uses. Those of one module stand together, and it is added once.
fn add_uses(needs: &mut List<Name>, module: &Name, uses: &[Use]) -> Result<(), AllocError>
    ensures { OnOk result (needs.new ≡ needs.old ++ filter (is_needed «module».now) (singled (each (λ w. w.object.«module») (each wanted_of uses.now)))) }
{
    let mut rest = uses;
    while let [of, more @ ..] = rest {
        let name = of.object.module.name();
        let again = begins_with(more, &name);
        add_unless(needs, module, &name, again)?;
        rest = more;
    }
    Ok(())
}

fn add_of_file(needs: &mut List<Name>, module: &Name, file: &ObjFile) -> Result<(), AllocError>
    ensures { OnOk result (needs.new ≡ needs.old ++ filter (is_needed «module».now) ((has_in file.now).imports ++ singled (each (λ w. w.object.«module») (has_in file.now).uses))) }
{
    add_needs(needs, module, file.head.imports.as_slice())?;
    add_uses(needs, module, file.head.uses.as_slice())
}

fn add_of_object(
    needs: &mut List<Name>,
    module: &Name,
    found: &Filed<ObjFile>,
) -> Result<(), AllocError>
    ensures { OnOk result (needs.new ≡ needs.old ++ filter (is_needed «module».now) (object_lean (seen has_in found.now))) }
{
    match found {
        Filed::Absent => Ok(()),
        Filed::Long => Ok(()),
        Filed::Damaged => Ok(()),
        Filed::Holds(file) => add_of_file(needs, module, file),
    }
}

fn add_of_symbols(
    needs: &mut List<Name>,
    module: &Name,
    found: &Filed<Interface>,
) -> Result<(), AllocError>
    ensures { OnOk result (needs.new ≡ needs.old ++ filter (is_needed «module».now) (symbol_needs (seen face_of found.now))) }
{
    match found {
        Filed::Absent => Ok(()),
        Filed::Long => Ok(()),
        Filed::Damaged => Ok(()),
        Filed::Holds(face) => add_needs(needs, module, face.imports.as_slice()),
    }
}

fn add_of_source(
    needs: &mut List<Name>,
    module: &Name,
    found: &Option<List<Name>>,
) -> Result<(), AllocError>
    ensures { OnOk result (needs.new ≡ needs.old ++ filter (is_needed «module».now) (source_needs (sourced found.now))) }
{
    match found {
        None => Ok(()),
        Some(names) => add_needs(needs, module, names.as_slice()),
    }
}

fn all_needs(
    alloc: Global,
    module: &Name,
    file: &Filed<ObjFile>,
    face: &Filed<Interface>,
    source: &Option<List<Name>>,
) -> Result<List<Name>, AllocError>
    ensures { IfOk result (λ l. l ≡ filter (is_needed «module».now) (object_lean (seen has_in file.now) ++ (symbol_needs (seen face_of face.now) ++ source_needs (sourced source.now)))) }
{
    let mut needs = List::new(alloc);
    add_of_object(&mut needs, module, file)?;
    add_of_symbols(&mut needs, module, face)?;
    add_of_source(&mut needs, module, source)?;
    Ok(needs)
}

/// The needs of a module, in order, a module of the uses once for those of its uses that stand together.
pub fn needs_of<F: Shelf>(
    alloc: Global,
    folder: &mut F,
    module: &Name,
) -> Result<List<Name>, MakeFault>
    ensures told { F.tells folder.new ≡ F.tells folder.old }
    ensures files { F.tells folder.old ≡ true → F.files folder.new ≡ F.files folder.old }
    ensures needs { F.tells folder.old ≡ true → AnswersAs (lean_needs (seen_in (F.files folder.old)) «module».now) result }
    ensures cause { MakeHasCause (F.faults folder.old) (F.faults folder.new) result }
{
    let file = find_file(alloc, folder, module)?;
    let face = find_face(alloc, folder, module)?;
    let source = find_source(alloc, folder, module)?;
    let Ok(needs) = all_needs(alloc, module, &file, &face, &source) else {
        return Err(MakeFault::Memory);
    };
    Ok(needs)
}
