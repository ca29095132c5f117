//! Whether a module is stale, and what is done of it at its turn.

ghost use Rattle.std.specs.Prelude.{◌≡◌, true, ◌||◌, not, map as each, bytes_eq, Option};
ghost use Rattle.std.specs.Option.{option_copied};
ghost use Rattle.ob_sym.specs.Grammar.{face as face_form};
ghost use Rattle.ob_env.specs.Faces.{wanted_of, face_of};
ghost use Rattle.ob_env.specs.Found.{carried_print};
ghost use Rattle.ob_env.specs.Stale.{compared, prints_agree};
ghost use Rattle.ob_cmp.specs.Rising.{object_at};
ghost use Rattle.ob_cmp.specs.Check.{print_of_desc, symbols_of, in_face};
ghost use Rattle.ob_make.specs.Stale.{fails, is_met, is_stale, is_there, meets, turn_in};
ghost use Rattle.ob_make.specs.Folder.{has_of, seen_in, prints};
ghost use Rattle.ob_make.specs.Answers.{AnswersAs, MakeHasCause};
ghost use Rattle.ob_make.specs.Filing.{IsFaceOf, seen};
ghost use Rattle.ob_make.specs.Faces.{KeepsFaces};
ghost use Rattle.ob_make.specs.Standing.{by_stale, is_stale_state, state_in, turn_by};

use crate::faces::Faces;
use crate::fault::MakeFault;
use crate::files::{Filed, find_file, find_source};
use crate::turns::Turn;
use ob_cmp::find_object;
use ob_io::Shelf;
use ob_obj::ObjFile;
use ob_tree::{Name, ObjName, Print};
use ob_types::{Aspect, Interface, Object, Use};
use std::alloc::Global;

/// How a module stands before its source is looked at.
#[derive(Clone, Copy, PartialEq, Eq, Drop)]
pub enum State {
    /// It has no object file.
    Missing,
    /// It has an object file, and is stale.
    Stale,
    /// It is up to date.
    Fresh,
}

// The print of an aspect.
fn carried(object: &Object, aspect: Aspect) -> Option<Print>
    ensures { result ≡ carried_print object.now aspect }
{
    match aspect {
        Aspect::Shape => Some(object.shape),
        Aspect::Layout => object.layout,
    }
}

// An object of an interface that has a symbol file.
#[tactic(auto, using(ob_cmp::proofs::Seen::rising))]
fn object_in<'a>(face: &'a Interface, name: &ObjName) -> Option<&'a Object>
    requires { face_form.fits face.now }
    ensures { option_copied result ≡ object_at name.now face.now.objects }
{
    find_object(face.objects.as_slice(), name)
}

// The print of the object and aspect of a use in the interface of its module.
fn present(face: &Interface, of: &Use) -> Option<Print>
    requires fits { face_form.fits face.now }
    requires named { face.now.«module» ≡ of.now.object.«module» }
    ensures { result ≡ in_face print_of_desc (face_of face.now) of.now.object of.now.aspect }
{
    match object_in(face, &of.object.object) {
        None => None,
        Some(object) => carried(object, of.aspect),
    }
}

fn agrees(of: &Use, found: Option<Print>) -> bool
    ensures { result ≡ is_met (compared prints_agree of.now.print found) }
{
    match found {
        None => false,
        Some(print) => of.print.0 == print.0,
    }
}

// Whether the symbol file of its module meets a use.
fn meets(face: &Filed<Interface>, of: &Use) -> bool
    requires { IsFaceOf of.now.object.«module» face.now }
    ensures { result ≡ meets prints (wanted_of of.now) (seen face_of face.now) }
{
    match face {
        Filed::Absent => false,
        Filed::Long => false,
        Filed::Damaged => false,
        Filed::Holds(face) => agrees(of, present(face, of)),
    }
}

// Whether one of these uses is not met.
fn fails<F: Shelf>(
    alloc: Global,
    folder: &mut F,
    faces: &mut Faces,
    uses: &[Use],
) -> Result<bool, MakeFault>
    requires keeps { F.tells folder.old ≡ true → KeepsFaces (symbols_of (F.files folder.old)) faces.old }
    ensures told { F.tells folder.new ≡ F.tells folder.old }
    ensures files { F.tells folder.old ≡ true → F.files folder.new ≡ F.files folder.old }
    ensures keeps { F.tells folder.old ≡ true → KeepsFaces (symbols_of (F.files folder.old)) faces.new }
    ensures fails { F.tells folder.old ≡ true → AnswersAs (fails prints (symbols_of (F.files folder.old)) (each wanted_of uses.now)) result }
    ensures cause { MakeHasCause (F.faults folder.old) (F.faults folder.new) result }
{
    let mut rest = uses;
    while let [of, more @ ..] = rest {
        let name = of.object.module.name();
        faces.learn(alloc, folder, &name)?;
        if !meets(faces.get(&name), of) {
            return Ok(true);
        }
        rest = more;
    }
    Ok(false)
}

fn is_there(face: &Filed<Interface>) -> bool
    ensures { result ≡ is_there (seen face_of face.now) }
{
    match face {
        Filed::Absent => false,
        Filed::Long => false,
        Filed::Damaged => false,
        Filed::Holds(_) => true,
    }
}

// Whether a module with this object file is stale.
fn is_stale_with<F: Shelf>(
    alloc: Global,
    folder: &mut F,
    faces: &mut Faces,
    module: &Name,
    file: &ObjFile,
) -> Result<bool, MakeFault>
    requires keeps { F.tells folder.old ≡ true → KeepsFaces (symbols_of (F.files folder.old)) faces.old }
    ensures told { F.tells folder.new ≡ F.tells folder.old }
    ensures files { F.tells folder.old ≡ true → F.files folder.new ≡ F.files folder.old }
    ensures keeps { F.tells folder.old ≡ true → KeepsFaces (symbols_of (F.files folder.old)) faces.new }
    ensures stale { F.tells folder.old ≡ true → AnswersAs (not (is_there (symbols_of (F.files folder.old) «module».now)) || fails prints (symbols_of (F.files folder.old)) (each wanted_of file.now.head.uses)) result }
    ensures cause { MakeHasCause (F.faults folder.old) (F.faults folder.new) result }
{
    faces.learn(alloc, folder, module)?;
    if !is_there(faces.get(module)) {
        return Ok(true);
    }
    fails(alloc, folder, faces, file.head.uses.as_slice())
}

fn by_stale(stale: bool) -> State
    ensures { result ≡ by_stale stale }
{
    if stale { State::Stale } else { State::Fresh }
}

// How a module stands.
fn look<F: Shelf>(
    alloc: Global,
    folder: &mut F,
    faces: &mut Faces,
    module: &Name,
) -> Result<State, MakeFault>
    requires keeps { F.tells folder.old ≡ true → KeepsFaces (symbols_of (F.files folder.old)) faces.old }
    ensures told { F.tells folder.new ≡ F.tells folder.old }
    ensures files { F.tells folder.old ≡ true → F.files folder.new ≡ F.files folder.old }
    ensures keeps { F.tells folder.old ≡ true → KeepsFaces (symbols_of (F.files folder.old)) faces.new }
    ensures state { F.tells folder.old ≡ true → AnswersAs (state_in (has_of (F.files folder.old) «module».now) (is_stale prints (seen_in (F.files folder.old)) «module».now)) result }
    ensures cause { MakeHasCause (F.faults folder.old) (F.faults folder.new) result }
{
    let found = find_file(alloc, folder, module)?;
    match found {
        Filed::Absent => Ok(State::Missing),
        Filed::Long => Ok(State::Stale),
        Filed::Damaged => Ok(State::Stale),
        Filed::Holds(file) => {
            let stale = is_stale_with(alloc, folder, faces, module, &file)?;
            Ok(by_stale(stale))
        }
    }
}

fn is_stale_state(state: State) -> bool
    ensures { result ≡ is_stale_state state }
{
    match state {
        State::Missing => true,
        State::Stale => true,
        State::Fresh => false,
    }
}

/// Whether a module is stale: its object file or its symbol file is missing, damaged or too long, or a use
/// in its object file is absent from the present symbol files, or changed there.
///
/// It answers `Folder` only where the folder failed and its count of faults rose, and neither `Cycle` nor
/// `TooMany`. The files stay as they are.
pub fn stale<F: Shelf>(alloc: Global, folder: &mut F, module: &Name) -> Result<bool, MakeFault>
    ensures told { F.tells folder.new ≡ F.tells folder.old }
    ensures files { F.tells folder.old ≡ true → F.files folder.new ≡ F.files folder.old }
    ensures stale { F.tells folder.old ≡ true → AnswersAs (is_stale prints (seen_in (F.files folder.old)) «module».now) result }
    ensures cause { MakeHasCause (F.faults folder.old) (F.faults folder.new) result }
{
    let mut faces = Faces::new(alloc);
    let state = look(alloc, folder, &mut faces, module)?;
    Ok(is_stale_state(state))
}

fn by_source(sourceless: bool) -> Turn
    ensures { result ≡ turn_by true State.Stale sourceless }
{
    if sourceless {
        Turn::LacksSource
    } else {
        Turn::Compiles
    }
}

fn missing_turn(made: bool, sourceless: bool) -> Turn
    ensures { result ≡ turn_by made State.Missing sourceless }
{
    if made {
        by_source(sourceless)
    } else if sourceless {
        Turn::Stays
    } else {
        Turn::Compiles
    }
}

fn turn_by(made: bool, state: State, sourceless: bool) -> Turn
    ensures { result ≡ turn_by made state sourceless }
{
    match state {
        State::Missing => missing_turn(made, sourceless),
        State::Stale => by_source(sourceless),
        State::Fresh => Turn::Stays,
    }
}

/// What a make of `made` does of `module` when its turn comes, by the files as they are: nothing, where it
/// is up to date, or where it has neither source nor object file and is not the one that is made; else it
/// is compiled, or refused where its source is missing or names another module. What it reads of symbol
/// files is kept.
///
/// It answers `Folder` only where the folder failed and its count of faults rose, and neither `Cycle` nor
/// `TooMany`. The files stay as they are.
pub fn turn<F: Shelf>(
    alloc: Global,
    folder: &mut F,
    faces: &mut Faces,
    made: &Name,
    module: &Name,
) -> Result<Turn, MakeFault>
    requires keeps { F.tells folder.old ≡ true → KeepsFaces (symbols_of (F.files folder.old)) faces.old }
    ensures told { F.tells folder.new ≡ F.tells folder.old }
    ensures files { F.tells folder.old ≡ true → F.files folder.new ≡ F.files folder.old }
    ensures keeps { F.tells folder.old ≡ true → KeepsFaces (symbols_of (F.files folder.old)) faces.new }
    ensures turn { F.tells folder.old ≡ true → AnswersAs (turn_in prints (seen_in (F.files folder.old)) made.now «module».now) result }
    ensures cause { MakeHasCause (F.faults folder.old) (F.faults folder.new) result }
{
    let state = look(alloc, folder, faces, module)?;
    if !is_stale_state(state) {
        return Ok(Turn::Stays);
    }
    let source = find_source(alloc, folder, module)?;
    let is_made = module.as_bytes() == made.as_bytes();
    Ok(turn_by(is_made, state, source.is_none()))
}
