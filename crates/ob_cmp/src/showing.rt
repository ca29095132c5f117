//! The text of an interface.

ghost use Rattle.std.specs.Prelude.{◌≡◌, ◌≤◌, ◌++◌, ℕ, OnOk, IfOk, length, decimal, codes};
ghost use Rattle.std.specs.List.{flat_map, AllByRecursion};
ghost use Rattle.ob_format.specs.Format.{Adds};
ghost use Rattle.ob_sym.specs.Grammar.{face as face_form};
ghost use Rattle.ob_env.specs.Faces.{face_of};
ghost use Rattle.ob_cmp.specs.Rising.{IsSpelledIn, shown};
ghost use Rattle.ob_cmp.specs.Show.{object_lines, show_text};

use crate::comparing::{layout_of, shape_of};
use ob_format::{put_bytes, put_number};
use ob_tree::{Name, Text};
use ob_types::{Interface, Object};
use std::alloc::{AllocError, Global};

fn put_line(out: &mut Vec<u8>, line: &[u8]) -> Result<(), AllocError>
    ensures { OnOk result (Adds out.old.items out.new.items (line.now ++ codes "\n")) }
{
    out.extend_from_slice(line)?;
    out.push(b'\n')?;
    Ok(())
}

// The texts of an object, a line each.
fn put_object(
    alloc: Global,
    out: &mut Vec<u8>,
    module: &Name,
    object: &Object,
) -> Result<(), AllocError>
    requires { IsSpelledIn «module».now object.now }
    ensures { OnOk result (Adds out.old.items out.new.items (object_lines «module».now (object.now.name, object.now.desc))) }
{
    let shape = shape_of(alloc, module, object)?;
    put_line(out, shape.as_slice())?;
    let layout = layout_of(alloc, module, object)?;
    match layout {
        None => Ok(()),
        Some(text) => put_line(out, text.as_slice()),
    }
}

fn put_objects(
    alloc: Global,
    out: &mut Vec<u8>,
    module: &Name,
    objects: &[Object],
) -> Result<(), AllocError>
    requires { AllByRecursion (IsSpelledIn «module».now) objects.now }
    ensures { OnOk result (Adds out.old.items out.new.items (flat_map (object_lines «module».now) (shown objects.now))) }
{
    let mut rest = objects;
    'objects: while let [first, more @ ..] = rest {
        put_object(alloc, out, module, first)?;
        rest = more;
    }
    Ok(())
}

fn put_head(out: &mut Vec<u8>, module: &Name, count: u32) -> Result<(), AllocError>
    ensures { OnOk result (Adds out.old.items out.new.items (codes "interface " ++ «module».now ++ codes ": " ++ decimal count ++ codes " objects\n")) }
{
    put_bytes(out, b"interface ")?;
    out.extend_from_slice(module.as_bytes())?;
    put_bytes(out, b":")?;
    put_number(out, count)?;
    put_bytes(out, b" objects\n")
}

/// The text of an interface: a line with its module and the number of its objects, and the texts
/// of each object, a line each. An error is want of memory alone.
#[tactic(auto, using(crate::proofs::Filed::few_objects))]
pub fn show(alloc: Global, face: &Interface) -> Result<Text, AllocError>
    // It has a symbol file.
    requires { face_form.fits face.now }
    ensures { IfOk result (λ t. t ≡ show_text (face_of face.now)) }
{
    let mut out = Vec::new(alloc);
    let objects = face.objects.as_slice();
    put_head(&mut out, &face.module, objects.len() as u32)?;
    put_objects(alloc, &mut out, &face.module, objects)?;
    let text = Text::from_slice(alloc, &out)?;
    Ok(text)
}
