//! The first object that does not fit.

ghost use Rattle.std.specs.Prelude.{◌≡◌, IfOk, IfSome};
ghost use Rattle.ob_env.specs.Stale.{first_among};
ghost use Rattle.ob_env.specs.Fit.{is_sound_record, fits, steps_of, stands as stands_well};
ghost use Rattle.ob_env.specs.Mapped.{map_of};
ghost use Rattle.ob_env_ranks.specs.Marks.{SayWithin, AreRanks};
ghost use Rattle.ob_env.specs.Faces.{faces_of};
ghost use Rattle.ob_env.specs.Building.{Checks, object_answer, objects_answer, unfit_answer};

use crate::conditions::{
    describes_type, has_bases, has_few_words, has_sound_sizes, keeps_places, names_types,
};
use crate::names::names_differ;
use ob_env::{Env, EnvFault};
use ob_env_files::SymbolFile;
use ob_env_ranks::{is_name_marked, within_marks};
use ob_tree::{CompactName, List, Name, ObjName, QName};
use ob_types::{Desc, Object};
use std::alloc::{AllocError, Global};

// More steps than any chain of aliases that comes to an end; none where they do not fit.
fn steps_for(faces: &[SymbolFile]) -> Option<usize>
    ensures { IfSome result (λ n. n ≡ steps_of (faces_of faces.now)) }
{
    let mut total: usize = 201;
    let mut rest = faces;
    while let [first, more @ ..] = rest {
        total = total.checked_add(first.objects().len())?;
        rest = more;
    }
    Some(total)
}

// A record's sizes and names.
fn is_sound(alloc: Global, env: &Env, steps: usize, desc: &Desc) -> Result<bool, AllocError>
    ensures { IfOk result (λ b. b ≡ is_sound_record (map_of env.now) steps desc.now) }
{
    match desc {
        Desc::Record(record) => {
            if has_sound_sizes(env, steps, record) {
                names_differ(alloc, env, steps, record)
            } else {
                Ok(false)
            }
        }
        _ => Ok(true),
    }
}

// No chain from the type on is too long.
fn stands(env: &Env, marks: &List<List<bool>>, name: &QName, desc: &Desc) -> bool
    requires { SayWithin env.now 201 marks.now }
    ensures { result ≡ stands_well (map_of env.now) 0 name.now desc.now }
{
    !describes_type(desc) || is_name_marked(env, marks.as_slice(), name)
}

// Whether an object keeps the ten conditions.
fn object_fits(
    alloc: Global,
    env: &Env,
    steps: usize,
    marks: &List<List<bool>>,
    name: &QName,
    desc: &Desc,
) -> Result<bool, AllocError>
    requires { SayWithin env.now 201 marks.now }
    ensures { IfOk result (λ b. b ≡ fits (map_of env.now) steps name.now desc.now) }
{
    if !names_types(env, steps, desc) || !stands(env, marks, name, desc) {
        return Ok(false);
    }
    if !has_bases(env, steps, desc) || !keeps_places(env, steps, desc) {
        return Ok(false);
    }
    if !has_few_words(env, name, desc) {
        return Ok(false);
    }
    is_sound(alloc, env, steps, desc)
}

// The name of that object of that module.
fn name_of(alloc: Global, module: &Name, object: &ObjName) -> Result<QName, AllocError>
    ensures { IfOk result (λ n. n ≡ record { «module» = «module».now; object = object.now }) }
{
    let module = CompactName::of(alloc, module)?;
    let object = object.clone()?;
    Ok(QName { module, object })
}

fn check_object(
    alloc: Global,
    env: &Env,
    steps: usize,
    marks: &List<List<bool>>,
    module: &Name,
    object: &Object,
) -> Result<(), EnvFault>
    requires { SayWithin env.now 201 marks.now }
    ensures { Checks (object_answer env.now steps «module».now object.now) result }
{
    let Ok(name) = name_of(alloc, module, &object.name) else {
        return Err(EnvFault::Memory);
    };
    match object_fits(alloc, env, steps, marks, &name, &object.desc) {
        Err(_) => Err(EnvFault::Memory),
        Ok(true) => Ok(()),
        Ok(false) => Err(EnvFault::Unfit { object: name }),
    }
}

// The objects of an interface in order.
fn check_objects(
    alloc: Global,
    env: &Env,
    steps: usize,
    marks: &List<List<bool>>,
    module: &Name,
    objects: &[Object],
) -> Result<(), EnvFault>
    requires { SayWithin env.now 201 marks.now }
    ensures { Checks (first_among (object_answer env.now steps «module».now) objects.now) result }
{
    let mut rest = objects;
    while let [first, more @ ..] = rest {
        check_object(alloc, env, steps, marks, module, first)?;
        rest = more;
    }
    Ok(())
}

fn check_faces(
    alloc: Global,
    env: &Env,
    steps: usize,
    marks: &List<List<bool>>,
    faces: &[SymbolFile],
) -> Result<(), EnvFault>
    requires { SayWithin env.now 201 marks.now }
    ensures { Checks (first_among (objects_answer env.now steps) faces.now) result }
{
    let mut rest = faces;
    while let [first, more @ ..] = rest {
        check_objects(alloc, env, steps, marks, first.module(), first.objects())?;
        rest = more;
    }
    Ok(())
}

/// The objects of some of the interfaces, in order, where the marks say which chains are short.
pub fn check_part(
    alloc: Global,
    env: &Env,
    marks: &List<List<bool>>,
    faces: &[SymbolFile],
) -> Result<(), EnvFault>
    requires { SayWithin env.now 201 marks.now }
    ensures { Checks (first_among (objects_answer env.now (steps_of (faces_of env.now))) faces.now) result }
{
    match steps_for(env.faces()) {
        None => Err(EnvFault::Memory),
        Some(steps) => check_faces(alloc, env, steps, marks, faces),
    }
}

/// The objects of the interfaces in order.
pub fn check_fit(alloc: Global, env: &Env, ranks: &Option<List<List<u32>>>) -> Result<(), EnvFault>
    requires { AreRanks env.now ranks.now }
    ensures { Checks (unfit_answer env.now) result }
{
    match within_marks(alloc, env, ranks) {
        Err(_) => Err(EnvFault::Memory),
        Ok(marks) => check_part(alloc, env, &marks, env.faces()),
    }
}
