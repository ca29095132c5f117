//! The symbol file of an interface.

ghost use Rattle.std.specs.Prelude.{◌≡◌, ◌<◌, ◌≤◌, ◌^◌, true, IfOk, IfSome, length};
ghost use Rattle.std.specs.List.{AllByRecursion, list_all};
ghost use Rattle.ob_format.specs.Format.{few, rising};
ghost use Rattle.ob_format.specs.Names.{name};
ghost use Rattle.ob_format.specs.Order.{rises};
ghost use Rattle.ob_types.specs.Spelled.{use_form, by_object};
ghost use Rattle.ob_obj.specs.Grammar.{by_name as by_bytes, is_import as is_allowed};
ghost use Rattle.ob_desc.specs.Grammar.{shape_text, layout_text, IsSpelled};
ghost use Rattle.ob_sym.specs.Grammar.{face as face_form, object_of, by_name, IsObjectOf};
ghost use Rattle.ob_obj_spelling.specs.Prints.{HasPrints, AllHavePrints};

use crate::checks::are_imports;
use crate::desc::has_texts;
use crate::groups::is_import_list;
use crate::lists::{Spelled, is_rising_list};
use crate::short::is_short_procedure;
use ob_desc::write_desc;
use ob_tree::{List, Name, ObjName};
use ob_types::{Aspect, Desc, Interface, Object, Use};
use std::alloc::{AllocError, Global};
use std::cmp::Ordering;

/// The most objects of an interface.
const MOST_OBJECTS: usize = 4096;

/// One more than the most bytes of a text.
const MOST_BYTES: usize = 4_294_967_296;

// Whether the shape text of a description that has texts is short enough, by writing it.
#[tactic(auto, using(ob_sym::proofs::Seen::seen_is))]
fn is_written_short(alloc: Global, module: &Name, object: &Object) -> Result<bool, AllocError>
    requires { IsSpelled (object_of «module».now object.now.name) object.now.desc }
    ensures { IfOk result (λ b. b ≡ true → length (shape_text (object_of «module».now object.now.name) object.now.desc) < 2 ^ 32) }
{
    let text = write_desc(alloc, module, &object.name, &object.desc, Aspect::Shape)?;
    Ok(text.len() < MOST_BYTES)
}

// Whether the shape text of a description that has texts is short enough. That of most procedures
// is not written for this.
fn has_short_shape(alloc: Global, module: &Name, object: &Object) -> Result<bool, AllocError>
    requires { IsSpelled (object_of «module».now object.now.name) object.now.desc }
    ensures { IfOk result (λ b. b ≡ true → length (shape_text (object_of «module».now object.now.name) object.now.desc) < 2 ^ 32) }
{
    if let Desc::Proc(of) = &object.desc {
        if is_short_procedure(module, &object.name, of) {
            return Ok(true);
        }
    }
    is_written_short(alloc, module, object)
}

// Whether the layout text of a record is short enough.
fn has_short_layout(alloc: Global, module: &Name, object: &Object) -> Result<bool, AllocError>
    ensures { IfOk result (λ b. b ≡ true → IfSome (layout_text (object_of «module».now object.now.name) object.now.desc) (λ t. length t < 2 ^ 32)) }
{
    match &object.desc {
        Desc::Record(_) => {
            let text = write_desc(alloc, module, &object.name, &object.desc, Aspect::Layout)?;
            Ok(text.len() < MOST_BYTES)
        }
        Desc::Const(_) => Ok(true),
        Desc::Var(_, _) => Ok(true),
        Desc::Proc(_) => Ok(true),
        Desc::Alias(_, _) => Ok(true),
        Desc::Array(_, _, _) => Ok(true),
        Desc::OpenArray(_, _) => Ok(true),
        Desc::Pointer(_, _) => Ok(true),
        Desc::ProcType(_, _) => Ok(true),
    }
}

#[tactic(auto, unfolding(ob_format::specs::Format::text32, ob_format::specs::Format::optional), using(crate::proofs::Faces::is_object))]
fn is_object(alloc: Global, module: &Name, object: &Object) -> Result<bool, AllocError>
    ensures { IfOk result (λ b. HasPrints «module».now object.now → b ≡ true → IsObjectOf «module».now object.now) }
{
    if !object.name.is_spelled() {
        return Ok(false);
    }
    if !has_texts(module.as_bytes(), object.name.as_bytes(), &object.desc) {
        return Ok(false);
    }
    let shape = has_short_shape(alloc, module, object)?;
    let layout = has_short_layout(alloc, module, object)?;
    Ok(shape && layout)
}

fn are_objects(alloc: Global, module: &Name, objects: &[Object]) -> Result<bool, AllocError>
    ensures { IfOk result (λ b. AllByRecursion (HasPrints «module».now) objects.now → b ≡ true → AllByRecursion (IsObjectOf «module».now) objects.now) }
{
    let mut rest = objects;
    while let [first, more @ ..] = rest {
        if !is_object(alloc, module, first)? {
            return Ok(false);
        }
        rest = more;
    }
    Ok(true)
}

fn objects_rise(objects: &[Object]) -> bool
    ensures { result ≡ rises by_name objects.now }
{
    let mut rest = objects;
    while let [first, second, ..] = rest {
        if first.name.as_bytes().cmp(second.name.as_bytes()) != Ordering::Less {
            return false;
        }
        rest = &rest[1..];
    }
    true
}

// Whether the module, its imports and its uses have spellings.
fn has_frame(face: &Interface) -> bool
    ensures { result ≡ true → (name.fits face.now.«module») × ((few 64 name by_bytes).fits face.now.imports × (rising use_form by_object).fits face.now.uses) }
{
    face.module.is_spelled() && is_import_list(&face.imports) && has_uses(&face.uses)
}

#[tactic(auto, using(crate::proofs::Sorted::uses_total))]
fn has_uses(uses: &List<Use>) -> bool
    ensures { result ≡ true → (rising use_form by_object).fits uses.now }
{
    is_rising_list(uses)
}

// Whether the objects are few and rise, and no import is built in.
fn has_order(face: &Interface) -> bool
    ensures { result ≡ true → (rises by_name face.now.objects ≡ true) × ((length face.now.objects ≤ 4096) × (list_all is_allowed face.now.imports ≡ true)) }
{
    objects_rise(face.objects.as_slice())
        && face.objects.len() <= MOST_OBJECTS
        && are_imports(face.imports.as_slice())
}

// Whether each object has a spelling.
fn has_objects(alloc: Global, face: &Interface) -> Result<bool, AllocError>
    ensures { IfOk result (λ b. AllHavePrints face.now → b ≡ true → AllByRecursion (λ o. IsObjectOf face.now.«module» o) face.now.objects) }
{
    are_objects(alloc, &face.module, face.objects.as_slice())
}

/// Whether it is found that the interface, whose objects carry the prints of their texts, has a
/// symbol file. What a compile makes has one, by a law of builds; a compile does not stand on that
/// law, and asks.
#[tactic(auto, using(crate::proofs::Faces::from_parts))]
pub fn has_symbol_file(alloc: Global, face: &Interface) -> Result<bool, AllocError>
    ensures { IfOk result (λ b. AllHavePrints face.now → b ≡ true → face_form.fits face.now) }
{
    let objects = has_objects(alloc, face)?;
    if !objects {
        return Ok(false);
    }
    if !has_frame(face) {
        return Ok(false);
    }
    Ok(has_order(face))
}
