//! The check of a client: which of its uses the interfaces of now do not meet.

ghost use Rattle.std.specs.Prelude.{◌≡◌, ◌++◌, ◌∷◌, [], Some, true, map as each, IfOk, OnOk};
ghost use Rattle.std.specs.Option.{option_copied};
ghost use Rattle.ob_sym.specs.Grammar.{face as face_form};
ghost use Rattle.ob_env.specs.Faces.{wanted_of, face_of};
ghost use Rattle.ob_env.specs.Found.{carried_print};
ghost use Rattle.ob_env.specs.Stale.{compared, prints_agree};
ghost use Rattle.ob_cmp.specs.Rising.{object_at};
ghost use Rattle.ob_cmp.specs.Check.{check_of, checked_uses, print_of_desc, symbols_of, stale_if, in_face};
ghost use Rattle.ob_cmp.specs.Checking.{ChecksAs, CheckHasCause, FaceFits, IsOf, Keeps, Names, Reads, stale_in};

use crate::lookup::find_object;
use crate::present::{find_face, find_file};
use crate::verdict::Stale;
use ob_io::Shelf;
use ob_tree::{List, Name, ObjName, Print};
use ob_types::{Aspect, Interface, Object, Use};
use ob_types_trees::copy_name;
use std::alloc::{AllocError, Global};

/// Why the uses of a module were not checked.
#[derive(Drop)]
pub enum CheckFault {
    /// The module has no object file.
    NoObject,
    /// A file that its grammar refuses, or that names another module.
    Damaged(Name),
    /// A file above the limit.
    Long(Name),
    /// The folder failed.
    Folder,
    /// Memory was wanting.
    Memory,
}

// The print of an aspect.
fn carried(object: &Object, aspect: Aspect) -> Option<Print>
    ensures { result ≡ carried_print object.now aspect }
{
    match aspect {
        Aspect::Shape => Some(object.shape),
        Aspect::Layout => object.layout,
    }
}

// The objects of an interface that has a symbol file.
#[tactic(auto, using(crate::proofs::Seen::rising))]
fn object_of<'a>(face: &'a Interface, name: &ObjName) -> Option<&'a Object>
    requires { face_form.fits face.now }
    ensures { option_copied result ≡ object_at name.now face.now.objects }
{
    find_object(face.objects.as_slice(), name)
}

// The print of the object and aspect of a use in the interface of its module.
fn present(face: &Interface, of: &Use) -> Option<Print>
    requires fits { face_form.fits face.now }
    requires named { face.now.«module» ≡ of.now.object.«module» }
    ensures { result ≡ in_face print_of_desc (face_of face.now) of.now.object of.now.aspect }
{
    match object_of(face, &of.object.object) {
        None => None,
        Some(object) => carried(object, of.aspect),
    }
}

fn add_stale(stale: &mut List<Stale>, of: &Use, absent: bool) -> Result<(), AllocError>
    ensures { OnOk result (stale.new ≡ stale.old ++ record { object = of.now.object; aspect = of.now.aspect; absent = absent } ∷ []) }
{
    let object = copy_name(&of.object)?;
    stale.push(Stale {
        object,
        aspect: of.aspect,
        absent,
    })
}

fn add_if(stale: &mut List<Stale>, of: &Use, found: Option<Print>) -> Result<(), AllocError>
    ensures { OnOk result (stale.new ≡ stale.old ++ stale_if (wanted_of of.now) (compared prints_agree of.now.print found)) }
{
    match found {
        None => add_stale(stale, of, true),
        Some(print) => {
            if print.0 == of.print.0 {
                Ok(())
            } else {
                add_stale(stale, of, false)
            }
        }
    }
}

// Adds the use where the interface that is there does not meet it.
fn check_use(stale: &mut List<Stale>, face: &Option<Interface>, of: &Use) -> Result<(), AllocError>
    requires fits { FaceFits face.now }
    requires named { IsOf of.now.object.«module» face.now }
    ensures { OnOk result (stale.new ≡ stale.old ++ stale_in face.now (wanted_of of.now)) }
{
    match face {
        None => add_stale(stale, of, true),
        Some(face) => add_if(stale, of, present(face, of)),
    }
}

fn is_of(read: &Option<Name>, name: &Name) -> bool
    ensures { result ≡ true → read.now ≡ Some name.now }
{
    match read {
        None => false,
        Some(read) => read.as_bytes() == name.as_bytes(),
    }
}

// Reads the symbol file of a module, unless it was the last that was read.
fn refresh<F: Shelf>(
    alloc: Global,
    folder: &mut F,
    read: &mut Option<Name>,
    face: &mut Option<Interface>,
    name: &Name,
) -> Result<(), CheckFault>
    requires fits { FaceFits face.old }
    requires named { Names read.old face.old }
    ensures told { F.tells folder.new ≡ F.tells folder.old }
    ensures files { F.tells folder.old ≡ true → F.files folder.new ≡ F.files folder.old }
    ensures reads { F.tells folder.old ≡ true → Keeps (symbols_of (F.files folder.old)) read.old face.old → Reads (symbols_of (F.files folder.old)) name.now face.new result }
    ensures keeps { F.tells folder.old ≡ true → Keeps (symbols_of (F.files folder.old)) read.old face.old → OnOk result (Keeps (symbols_of (F.files folder.old)) read.new face.new) }
    ensures fits { OnOk result (FaceFits face.new) }
    ensures named { OnOk result (Names read.new face.new) }
    ensures of { OnOk result (IsOf name.now face.new) }
    ensures cause { CheckHasCause (F.faults folder.old) (F.faults folder.new) result }
{
    if is_of(read, name) {
        return Ok(());
    }
    let found = find_face(alloc, folder, name)?;
    *face = found;
    *read = Some(*name);
    Ok(())
}

// The uses that the present symbol files do not meet. The uses of a module stand together, so its
// file is read once.
fn check_uses<F: Shelf>(
    alloc: Global,
    folder: &mut F,
    uses: &[Use],
) -> Result<List<Stale>, CheckFault>
    ensures told { F.tells folder.new ≡ F.tells folder.old }
    ensures files { F.tells folder.old ≡ true → F.files folder.new ≡ F.files folder.old }
    ensures checked { F.tells folder.old ≡ true → ChecksAs (checked_uses prints_agree print_of_desc (symbols_of (F.files folder.old)) (each wanted_of uses.now)) result }
    ensures cause { CheckHasCause (F.faults folder.old) (F.faults folder.new) result }
{
    let mut stale = List::new(alloc);
    let mut read = None;
    let mut face = None;
    let mut rest = uses;
    while let [of, more @ ..] = rest {
        refresh(
            alloc,
            folder,
            &mut read,
            &mut face,
            &of.object.module.name(),
        )?;
        let Ok(()) = check_use(&mut stale, &face, of) else {
            return Err(CheckFault::Memory);
        };
        rest = more;
    }
    Ok(stale)
}

/// The uses in the object file of the module that the present symbol files do not meet, or the
/// first fault: of the object file, then of the used modules' symbol files in the order of the
/// uses. The files stay as they are. `Folder` comes only where the folder's count of faults rose.
pub fn check_client<F: Shelf>(
    alloc: Global,
    folder: &mut F,
    module: &Name,
) -> Result<List<Stale>, CheckFault>
    ensures told { F.tells folder.new ≡ F.tells folder.old }
    ensures files { F.tells folder.old ≡ true → F.files folder.new ≡ F.files folder.old }
    ensures checked { F.tells folder.old ≡ true → ChecksAs (check_of (F.files folder.old) «module».now) result }
    ensures cause { CheckHasCause (F.faults folder.old) (F.faults folder.new) result }
{
    let file = find_file(alloc, folder, module)?;
    check_uses(alloc, folder, file.head.uses.as_slice())
}
