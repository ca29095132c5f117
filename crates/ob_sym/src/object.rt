//! The objects of a symbol file.

ghost use Rattle.std.specs.Prelude.{◌≡◌, OnOk};
ghost use Rattle.std.specs.Option.{option_copied};
ghost use Rattle.ob_format.specs.Format.{Adds, Finds, Gives, optional, text32, items_at, list_of, rising};
ghost use Rattle.ob_format.specs.Order.{rises};
ghost use Rattle.ob_desc.specs.Grammar.{same_object, layout_text};
ghost use Rattle.ob_sym.specs.Grammar.{object_of, described_as, object_in, by_name, has_layout};

use ob_desc::{described, write_desc};
use ob_format::{Fault, Wire, put_bytes, text_at, u32_at, write_text};
use ob_fprint::print_of;
use ob_tree::{List, Name, ObjName, QName};
use ob_types::{Aspect, Desc, Object};
use std::alloc::{AllocError, Global};
use std::cmp::Ordering;

// A text behind a flag, not copied, and what follows it.
#[tactic(auto, unfolding(ob_format::specs::Format::optional, ob_format::specs::Format::optional_at))]
fn optional_text_at(bytes: &[u8]) -> Option<(Option<&[u8]>, &[u8])>
    ensures { Finds (λ x. (option_copied x.0, x.1.now)) result ((optional text32).take bytes.now) }
{
    match bytes {
        [] => None,
        [0, rest @ ..] => Some((None, rest)),
        [1, rest @ ..] => {
            let (text, rest) = text_at(rest)?;
            Some((Some(text), rest))
        }
        [_, ..] => None,
    }
}

fn is_named(found: &QName, module: &Name, name: &ObjName) -> bool
    ensures { result ≡ same_object found.now (object_of «module».now name.now) }
{
    found.module.as_bytes() == module.as_bytes() && found.object.as_bytes() == name.as_bytes()
}

// The object of that name which the texts describe.
#[tactic(auto, unfolding(crate::specs::Grammar::described_as))]
fn made_of(
    alloc: Global,
    module: &Name,
    name: ObjName,
    shape: &[u8],
    layout: Option<&[u8]>,
) -> Result<Object, Fault>
    ensures { Gives (λ x. x) result (described_as «module».now (name, (shape.now, option_copied layout.entry))) }
{
    let (found, desc) = described(alloc, shape, layout)?;
    if !is_named(&found, module, &name) {
        return Err(Fault::Damaged);
    }
    let layout = match layout {
        Some(text) => Some(print_of(text)),
        None => None,
    };
    Ok(Object {
        name,
        desc,
        shape: print_of(shape),
        layout,
    })
}

// The object of the module at the front, and what follows it.
#[tactic(auto, unfolding(crate::specs::Grammar::object_in, ob_format::specs::Format::parsed_at, ob_format::specs::Format::pair_at))]
fn read_object<'a>(
    alloc: Global,
    module: &Name,
    bytes: &'a [u8],
) -> Result<(Object, &'a [u8]), Fault>
    ensures { Gives (λ x. (x.0, x.1.now)) result ((object_in «module».now).take bytes.now) }
{
    let (name, rest) = ObjName::read(alloc, bytes)?;
    let Some((shape, rest)) = text_at(rest) else {
        return Err(Fault::Damaged);
    };
    let Some((layout, rest)) = optional_text_at(rest) else {
        return Err(Fault::Damaged);
    };
    let object = made_of(alloc, module, name, shape, layout)?;
    Ok((object, rest))
}

fn read_items<'a>(
    alloc: Global,
    module: &Name,
    count: u32,
    bytes: &'a [u8],
) -> Result<(List<Object>, &'a [u8]), Fault>
    ensures { Gives (λ x. (x.0, x.1.now)) result (items_at (object_in «module».now).take count bytes.now) }
{
    let mut items = List::new(alloc);
    let mut rest = bytes;
    for _ in 0..count {
        let (item, after) = read_object(alloc, module, rest)?;
        items.push(item)?;
        rest = after;
    }
    Ok((items, rest))
}

fn objects_rise(objects: &[Object]) -> bool
    ensures { result ≡ rises by_name objects.now }
{
    let mut rest = objects;
    while let [first, second, ..] = rest {
        if first.name.compare(&second.name) != Ordering::Less {
            return false;
        }
        rest = &rest[1..];
    }
    true
}

// The objects of the module, ascending by name, and what follows them.
#[tactic(auto, unfolding(ob_format::specs::Format::list_of, ob_format::specs::Format::word32, ob_format::specs::Format::list_at, ob_format::specs::Format::such_that_at))]
pub fn read_objects<'a>(
    alloc: Global,
    module: &Name,
    bytes: &'a [u8],
) -> Result<(List<Object>, &'a [u8]), Fault>
    ensures { Gives (λ x. (x.0, x.1.now)) result ((rising (object_in «module».now) by_name).take bytes.now) }
{
    let Some((count, rest)) = u32_at(bytes) else {
        return Err(Fault::Damaged);
    };
    let (items, rest) = read_items(alloc, module, count, rest)?;
    if !objects_rise(items.as_slice()) {
        return Err(Fault::Damaged);
    }
    Ok((items, rest))
}

fn is_record(desc: &Desc) -> bool
    ensures { result ≡ has_layout desc.now }
{
    match desc {
        Desc::Record(_) => true,
        Desc::Const(_) => false,
        Desc::Var(_, _) => false,
        Desc::Proc(_) => false,
        Desc::Alias(_, _) => false,
        Desc::Array(_, _, _) => false,
        Desc::OpenArray(_, _) => false,
        Desc::Pointer(_, _) => false,
        Desc::ProcType(_, _) => false,
    }
}

fn write_layout(
    alloc: Global,
    module: &Name,
    object: &Object,
    out: &mut Vec<u8>,
) -> Result<(), AllocError>
    requires { (object_in «module».now).fits object.now }
    ensures { OnOk result (Adds out.old.items out.new.items ((optional text32).spell (layout_text (object_of «module».now object.now.name) object.now.desc))) }
{
    if !is_record(&object.desc) {
        put_bytes(out, &[0])?;
        return Ok(());
    }
    let text = write_desc(alloc, module, &object.name, &object.desc, Aspect::Layout)?;
    put_bytes(out, &[1])?;
    write_text(text.as_slice(), out)?;
    Ok(())
}

fn write_object(
    alloc: Global,
    module: &Name,
    object: &Object,
    out: &mut Vec<u8>,
) -> Result<(), AllocError>
    requires { (object_in «module».now).fits object.now }
    ensures { OnOk result (Adds out.old.items out.new.items ((object_in «module».now).spell object.now)) }
{
    let shape = write_desc(alloc, module, &object.name, &object.desc, Aspect::Shape)?;
    object.name.write(out)?;
    write_text(shape.as_slice(), out)?;
    write_layout(alloc, module, object, out)?;
    Ok(())
}

/// Adds the objects of the module, behind their count of four bytes.
#[tactic(auto, unfolding(ob_format::specs::Format::list_of))]
pub fn write_objects(
    alloc: Global,
    module: &Name,
    objects: &[Object],
    out: &mut Vec<u8>,
) -> Result<(), AllocError>
    requires { (list_of (object_in «module».now)).fits objects.now }
    ensures { OnOk result (Adds out.old.items out.new.items ((list_of (object_in «module».now)).spell objects.now)) }
{
    out.extend_from_slice(&(objects.len() as u32).to_be_bytes())?;
    for object in objects {
        write_object(alloc, module, object, out)?;
    }
    Ok(())
}
