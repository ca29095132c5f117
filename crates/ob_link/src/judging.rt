//! Whether the uses of an object file are met, and whether its links name something.

ghost use Rattle.std.specs.Prelude.{◌≡◌, ◌≤◌, ◌+◌, ◌*◌, ◌++◌, map, length, IfOk, IfSome, Some};
ghost use Rattle.std.specs.Option.{option_copied, option_map};
ghost use Rattle.ob_link.specs.Walk.{first_of};
ghost use Rattle.ob_link.specs.Index.{place_from};
ghost use Rattle.ob_env.specs.Faces.{wanted_of};
ghost use Rattle.ob_link.specs.Plan.{use_against};
ghost use Rattle.ob_link.specs.Files.{answered, agrees, linked as linked_as};
ghost use Rattle.ob_link.specs.Members.{member_named};
ghost use Rattle.ob_link.specs.Judging.{kept_of, use_break as use_break_of, variable_in, procedure_in, type_in, missing_variable, missing_procedure, missing_type, missing as missing_of, breaks, is_passed as is_passed_of, words_of as words_of_all, command_in as command_in_of, command_ref as command_ref_of};

use crate::fault::LoadRefusal;
use crate::loaded::Loaded;
use crate::member::Member;
use ob_obj::{Link, Links, ObjFile};
use ob_tree::{CompactName, Name, ObjName, Print, ProcRef, QName};
use ob_types::Use;
use std::alloc::{AllocError, Global};

/// The most modules that are loaded.
const MOST_MODULES: u32 = 255;

// The loaded or planned module of a name.
fn find<'a>(loaded: &'a Loaded, new: &'a Loaded, name: &Name) -> Option<&'a Member>
    ensures { option_copied result ≡ member_named name.now (loaded.now ++ new.now) }
{
    match loaded.find(name) {
        Some(member) => Some(member),
        None => new.find(name),
    }
}

// The number of the loaded or planned module of a name.
fn number_of(loaded: &Loaded, new: &Loaded, name: &Name) -> Option<u32>
    ensures { result ≡ place_from 0 (map (λ k. k.name) (loaded.now ++ new.now)) name.now }
{
    match loaded.place(name) {
        Some(place) => Some(place),
        None => {
            let place = new.place(name)?;
            Some(loaded.count() + place)
        }
    }
}

/// Whether the walk passes over a module.
pub fn is_passed(loaded: &Loaded, new: &Loaded, name: &Name) -> bool
    ensures { result ≡ is_passed_of (loaded.now ++ new.now) name.now }
{
    name.as_bytes() == b"Out".as_slice() || find(loaded, new, name).is_some()
}

// The loaded or planned module of a name, looked for in one that was found before.
fn find_near<'a>(
    loaded: &'a Loaded,
    new: &'a Loaded,
    near: Option<&'a Member>,
    name: &Name,
) -> Option<&'a Member>
    requires { IfSome (option_copied near) (λ k. member_named k.name (loaded.now ++ new.now) ≡ Some k) }
    ensures found { option_copied result ≡ member_named name.now (loaded.now ++ new.now) }
    ensures near { IfSome (option_copied result) (λ k. member_named k.name (loaded.now ++ new.now) ≡ Some k) }
{
    match near {
        Some(member) => {
            if member.name().as_bytes() == name.as_bytes() {
                near
            } else {
                find(loaded, new, name)
            }
        }
        None => find(loaded, new, name),
    }
}

// The print that a module exports, and its place, looked for at a place first.
fn kept_print(member: Option<&Member>, near: usize, wanted: &Use) -> Option<(Print, usize)>
    ensures { option_map (λ f. f.0) result ≡ kept_of (option_copied member.entry) wanted.now.object.object wanted.now.aspect }
{
    match member {
        Some(member) => member.print_of(near, &wanted.object.object, wanted.aspect),
        None => None,
    }
}

// What is wrong with a use, where its module exports this print.
fn use_break(
    client: &Name,
    wanted: &Use,
    found: Option<Print>,
) -> Result<Option<LoadRefusal>, AllocError>
    ensures { IfOk result (λ o. o ≡ option_map answered (use_against agrees client.now (wanted_of wanted.now) found)) }
{
    match found {
        None => {
            let object = wanted.object.clone()?;
            Ok(Some(LoadRefusal::Absent {
                client: *client,
                object,
            }))
        }
        Some(found) => {
            if wanted.print.agrees(&found) {
                return Ok(None);
            }
            let object = wanted.object.clone()?;
            Ok(Some(LoadRefusal::Changed {
                client: *client,
                object,
                aspect: wanted.aspect,
                wanted: wanted.print,
                found,
            }))
        }
    }
}

// The print alone.
fn print_alone(found: Option<(Print, usize)>) -> Option<Print>
    ensures { result ≡ option_map (λ f. f.0) found }
{
    match found {
        Some((print, _)) => Some(print),
        None => None,
    }
}

// The place behind that of a print.
fn place_behind(found: Option<(Print, usize)>) -> usize {
    match found {
        Some((_, place)) => place.wrapping_add(1),
        None => 0,
    }
}

// What is wrong with the first use with which something is. Uses and exports rise in the same order, so each is looked
// for in the module of the one before first, and behind its place.
fn first_break(
    loaded: &Loaded,
    new: &Loaded,
    client: &Name,
    uses: &[Use],
) -> Result<Option<LoadRefusal>, AllocError>
    ensures { IfOk result (λ o. o ≡ option_map answered (first_of (use_break_of (loaded.now ++ new.now) client.now) uses.now)) }
{
    let mut near = None;
    let mut place = 0;
    let mut rest = uses;
    while let [first, more @ ..] = rest {
        let member = find_near(loaded, new, near, &first.object.module.name());
        let found = kept_print(member, place, first);
        if let Some(refusal) = use_break(client, first, print_alone(found))? {
            return Ok(Some(refusal));
        }
        near = member;
        place = place_behind(found);
        rest = more;
    }
    Ok(None)
}

fn has_variable(loaded: &Loaded, new: &Loaded, link: &Link) -> bool
    ensures { result ≡ variable_in (member_named link.now.«module» (loaded.now ++ new.now)) link.now.name }
{
    match find(loaded, new, &link.module) {
        Some(member) => member.has_variable(&link.name),
        None => false,
    }
}

fn has_procedure(loaded: &Loaded, new: &Loaded, link: &Link) -> bool
    ensures { result ≡ procedure_in (member_named link.now.«module» (loaded.now ++ new.now)) link.now.name }
{
    match find(loaded, new, &link.module) {
        Some(member) => member.procedure(&link.name).is_some(),
        None => false,
    }
}

fn has_type(loaded: &Loaded, new: &Loaded, name: &QName) -> bool
    ensures { result ≡ type_in (member_named name.now.«module» (loaded.now ++ new.now)) name.now.object }
{
    match find(loaded, new, &name.module.name()) {
        Some(member) => member.type_place(&name.object).is_some(),
        None => false,
    }
}

// What a link names.
fn linked(alloc: Global, link: &Link) -> Result<QName, AllocError>
    ensures { IfOk result (λ q. q ≡ linked_as link.now) }
{
    let object = ObjName::from_name(alloc, &link.name)?;
    let module = CompactName::of(alloc, &link.module)?;
    Ok(QName { module, object })
}

fn first_variable(
    alloc: Global,
    loaded: &Loaded,
    new: &Loaded,
    links: &[Link],
) -> Result<Option<QName>, AllocError>
    ensures { IfOk result (λ o. o ≡ first_of (missing_variable (loaded.now ++ new.now)) links.now) }
{
    let mut rest = links;
    while let [first, more @ ..] = rest {
        if !has_variable(loaded, new, first) {
            let name = linked(alloc, first)?;
            return Ok(Some(name));
        }
        rest = more;
    }
    Ok(None)
}

fn first_procedure(
    alloc: Global,
    loaded: &Loaded,
    new: &Loaded,
    links: &[Link],
) -> Result<Option<QName>, AllocError>
    ensures { IfOk result (λ o. o ≡ first_of (missing_procedure (loaded.now ++ new.now)) links.now) }
{
    let mut rest = links;
    while let [first, more @ ..] = rest {
        if !has_procedure(loaded, new, first) {
            let name = linked(alloc, first)?;
            return Ok(Some(name));
        }
        rest = more;
    }
    Ok(None)
}

fn first_type(loaded: &Loaded, new: &Loaded, links: &[QName]) -> Result<Option<QName>, AllocError>
    ensures { IfOk result (λ o. o ≡ first_of (missing_type (loaded.now ++ new.now)) links.now) }
{
    let mut rest = links;
    while let [first, more @ ..] = rest {
        if !has_type(loaded, new, first) {
            let name = first.clone()?;
            return Ok(Some(name));
        }
        rest = more;
    }
    Ok(None)
}

// The first of the variables, then of the procedures, then of the types that links name and that are not there.
fn missing(
    alloc: Global,
    loaded: &Loaded,
    new: &Loaded,
    links: &Links,
) -> Result<Option<QName>, AllocError>
    ensures { IfOk result (λ o. o ≡ missing_of (loaded.now ++ new.now) links.now) }
{
    if let Some(name) = first_variable(alloc, loaded, new, links.variables.as_slice())? {
        return Ok(Some(name));
    }
    if let Some(name) = first_procedure(alloc, loaded, new, links.procedures.as_slice())? {
        return Ok(Some(name));
    }
    first_type(loaded, new, links.types.as_slice())
}

/// What refuses a file whose imports are done, behind the loaded and the planned modules: the first use that is
/// absent or changed, the first link that names nothing, or that there would be too many modules.
pub fn judge(
    alloc: Global,
    loaded: &Loaded,
    new: &Loaded,
    file: &ObjFile,
) -> Result<Option<LoadRefusal>, AllocError>
    ensures { IfOk result (λ o. o ≡ option_map answered (breaks (loaded.now ++ new.now) file.now)) }
{
    let client = file.head.module;
    if let Some(refusal) = first_break(loaded, new, &client, file.head.uses.as_slice())? {
        return Ok(Some(refusal));
    }
    if let Some(object) = missing(alloc, loaded, new, &file.links)? {
        return Ok(Some(LoadRefusal::Absent { client, object }));
    }
    let count = loaded.count() + new.count() + 1;
    if count > MOST_MODULES {
        return Ok(Some(LoadRefusal::TooMany { count }));
    }
    Ok(None)
}

/// The words of the globals of modules.
pub fn words_of(members: &[Member]) -> u32
    requires { length members.now ≤ 255 }
    ensures words { result ≡ words_of_all members.now }
    ensures few { result ≤ 255 * 262144 }
{
    let mut words = 0;
    let mut rest = members;
    while let [first, more @ ..] = rest {
        words += first.words();
        rest = more;
    }
    words
}

// The number of the procedure of a command of a loaded or planned module.
fn command_in(loaded: &Loaded, new: &Loaded, name: &Name, command: &Name) -> Option<u32>
    ensures { result ≡ command_in_of (member_named name.now (loaded.now ++ new.now)) command.now }
{
    let member = find(loaded, new, name)?;
    let exported = member.procedure(command)?;
    if exported.is_command {
        Some(exported.procedure)
    } else {
        None
    }
}

/// The procedure of a command of a loaded or planned module.
pub fn command_ref(loaded: &Loaded, new: &Loaded, name: &Name, command: &Name) -> Option<ProcRef>
    ensures { result ≡ command_ref_of (loaded.now ++ new.now) name.now command.now }
{
    match command_in(loaded, new, name, command) {
        None => None,
        Some(proc) => match number_of(loaded, new, name) {
            None => None,
            Some(module) => Some(ProcRef { module, proc }),
        },
    }
}
