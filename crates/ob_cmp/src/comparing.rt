//! The comparison of two interfaces, object by object.

ghost use Rattle.std.specs.Prelude.{◌≡◌, ◌+◌, ◌<◌, ◌++◌, ◌∷◌, [], Option, length, OnOk, IfOk, map as each};
ghost use Rattle.ob_desc.specs.Grammar.{shape_text, layout_text, shape_fits};
ghost use Rattle.ob_sym.specs.Grammar.{object_of, face as face_form};
ghost use Rattle.ob_env.specs.Faces.{face_of};
ghost use Rattle.ob_cmp.specs.Verdicts.{layouts_agree, unless, text_kinds, verdict_of, verdicts_in, verdicts};
ghost use Rattle.ob_cmp.specs.Rising.{AreObjects, IsSpelledIn, shown};

use crate::verdict::{Kind, Verdict};
use ob_desc::write_desc;
use ob_env_files::SymbolFile;
use ob_tree::{List, Name, ObjName, Text};
use ob_types::{Aspect, Desc, Interface, Object};
use std::alloc::{AllocError, Global};
use std::cmp::Ordering;

// The shape text of an object of a file.
#[tactic(auto, using(ob_sym::proofs::Seen::seen_is))]
pub fn shape_of(alloc: Global, module: &Name, object: &Object) -> Result<Text, AllocError>
    requires { IsSpelledIn «module».now object.now }
    ensures { IfOk result (λ t. t ≡ shape_text (object_of «module».now object.now.name) object.now.desc) }
{
    let text = write_desc(alloc, module, &object.name, &object.desc, Aspect::Shape)?;
    Ok(text)
}

/// The layout text of an object, which a record has.
pub fn layout_of(alloc: Global, module: &Name, object: &Object) -> Result<Option<Text>, AllocError>
    ensures { IfOk result (λ t. t ≡ layout_text (object_of «module».now object.now.name) object.now.desc) }
{
    match &object.desc {
        Desc::Record(_) => {
            let text = write_desc(alloc, module, &object.name, &object.desc, Aspect::Layout)?;
            Ok(Some(text))
        }
        Desc::Const(_) => Ok(None),
        Desc::Var(_, _) => Ok(None),
        Desc::Proc(_) => Ok(None),
        Desc::Alias(_, _) => Ok(None),
        Desc::Array(_, _, _) => Ok(None),
        Desc::OpenArray(_, _) => Ok(None),
        Desc::Pointer(_, _) => Ok(None),
        Desc::ProcType(_, _) => Ok(None),
    }
}

fn agree(a: &Option<Text>, b: &Option<Text>) -> bool
    ensures { result ≡ layouts_agree a.now b.now }
{
    match a {
        None => b.is_none(),
        Some(text) => match b {
            None => false,
            Some(other) => text.as_slice() == other.as_slice(),
        },
    }
}

// A verdict on the object of that name.
fn add(all: &mut List<Verdict>, name: &ObjName, kind: Kind) -> Result<(), AllocError>
    ensures { OnOk result (all.new ≡ all.old ++ verdict_of name.now kind ∷ []) }
{
    let object = name.clone()?;
    all.push(Verdict { object, kind })?;
    Ok(())
}

fn add_unless(
    all: &mut List<Verdict>,
    name: &ObjName,
    same: bool,
    kind: Kind,
) -> Result<(), AllocError>
    ensures { OnOk result (all.new ≡ all.old ++ each (verdict_of name.now) (unless same kind)) }
{
    if same {
        return Ok(());
    }
    add(all, name, kind)
}

// What of the texts of an object of two files differs.
#[tactic(auto, using(crate::proofs::Adding::both_kinds))]
fn add_changes(
    alloc: Global,
    all: &mut List<Verdict>,
    old_module: &Name,
    old: &Object,
    new_module: &Name,
    new: &Object,
) -> Result<(), AllocError>
    requires old { IsSpelledIn old_module.now old.now }
    requires new { IsSpelledIn new_module.now new.now }
    ensures { OnOk result (all.new ≡ all.old ++ each (verdict_of old.now.name) (text_kinds (shape_text (object_of old_module.now old.now.name) old.now.desc) (layout_text (object_of old_module.now old.now.name) old.now.desc) (shape_text (object_of new_module.now new.now.name) new.now.desc) (layout_text (object_of new_module.now new.now.name) new.now.desc))) }
{
    let shape = shape_of(alloc, old_module, old)?;
    let new_shape = shape_of(alloc, new_module, new)?;
    let same_shape = shape.as_slice() == new_shape.as_slice();
    let layout = layout_of(alloc, old_module, old)?;
    let new_layout = layout_of(alloc, new_module, new)?;
    let same_layout = agree(&layout, &new_layout);
    add_unless(all, &old.name, same_shape, Kind::ShapeChanged)?;
    add_unless(all, &old.name, same_layout, Kind::LayoutChanged)
}

// Goes over the least name that either has.
fn step<'a>(
    alloc: Global,
    all: &mut List<Verdict>,
    old_module: &Name,
    older: &'a [Object],
    new_module: &Name,
    newer: &'a [Object],
) -> Result<(&'a [Object], &'a [Object]), AllocError>
    requires old { AreObjects old_module.now older.now }
    requires new { AreObjects new_module.now newer.now }
    ensures old { IfOk result (λ r. AreObjects old_module.now r.0.now) }
    ensures new { IfOk result (λ r. AreObjects new_module.now r.1.now) }
    ensures shorter { IfOk result (λ r. 0 < length older.now + length newer.now → length r.0.now + length r.1.now < length older.now + length newer.now) }
    ensures verdicts { IfOk result (λ r. all.new ++ verdicts_in old_module.now (shown r.0.now) new_module.now (shown r.1.now) ≡ all.old ++ verdicts_in old_module.now (shown older.now) new_module.now (shown newer.now)) }
{
    match older {
        [] => match newer {
            [] => Ok((older, newer)),
            [second, after @ ..] => {
                add(all, &second.name, Kind::Added)?;
                Ok((older, after))
            }
        },
        [first, behind @ ..] => match newer {
            [] => {
                add(all, &first.name, Kind::Gone)?;
                Ok((behind, newer))
            }
            [second, after @ ..] => match first.name.compare(&second.name) {
                Ordering::Less => {
                    add(all, &first.name, Kind::Gone)?;
                    Ok((behind, newer))
                }
                Ordering::Greater => {
                    add(all, &second.name, Kind::Added)?;
                    Ok((older, after))
                }
                Ordering::Equal => {
                    add_changes(alloc, all, old_module, first, new_module, second)?;
                    Ok((behind, after))
                }
            },
        },
    }
}

// The differences of the objects of two modules, by name and kind.
fn compare_objects(
    alloc: Global,
    old_module: &Name,
    old: &[Object],
    new_module: &Name,
    new: &[Object],
) -> Result<List<Verdict>, AllocError>
    requires old { AreObjects old_module.now old.now }
    requires new { AreObjects new_module.now new.now }
    ensures { IfOk result (λ l. l ≡ verdicts_in old_module.now (shown old.now) new_module.now (shown new.now)) }
{
    let mut all = List::new(alloc);
    let mut older = old;
    let mut newer = new;
    'merge: while !older.is_empty() || !newer.is_empty() {
        let (behind, after) = step(alloc, &mut all, old_module, older, new_module, newer)?;
        older = behind;
        newer = after;
    }
    Ok(all)
}

/// The differences of two interfaces, by name and kind. An error is want of memory alone.
#[tactic(auto, using(crate::proofs::Filed::are_objects))]
pub fn compare(alloc: Global, old: &Interface, new: &Interface) -> Result<List<Verdict>, AllocError>
    // Both have a symbol file.
    requires old { face_form.fits old.now }
    requires new { face_form.fits new.now }
    ensures { IfOk result (λ l. l ≡ verdicts (face_of old.now) (face_of new.now)) }
{
    compare_objects(
        alloc,
        &old.module,
        old.objects.as_slice(),
        &new.module,
        new.objects.as_slice(),
    )
}

/// The differences of an interface and that of a symbol file, as `compare` tells them.
#[tactic(auto, using(crate::proofs::Filed::are_objects))]
pub fn compare_file(
    alloc: Global,
    old: &Interface,
    new: &SymbolFile,
) -> Result<List<Verdict>, AllocError>
    // The interface has a symbol file, and so has what the file spells.
    requires old { face_form.fits old.now }
    requires new { face_form.fits new.now }
    ensures { IfOk result (λ l. l ≡ verdicts (face_of old.now) (face_of new.now)) }
{
    compare_objects(
        alloc,
        &old.module,
        old.objects.as_slice(),
        new.module(),
        new.objects(),
    )
}
