//! A symbol file, read and written.

ghost use Rattle.std.specs.Prelude.{◌≡◌, MatchResult, OnOk, IfOk};
ghost use Rattle.std.specs.List.{list_all};
ghost use Rattle.ob_format.specs.Format.{Adds, Gives, whole};
ghost use Rattle.ob_types.specs.declared.face.Interface.{Interface as Face};
ghost use Rattle.ob_sym.specs.Grammar.{face as face_form, is_import, is_sound};

use crate::fault::SymFault;
use crate::object::{read_objects, write_objects};
use ob_format::{Fault, Wire, few_list, put_bytes, rising_list, skip};
use ob_tree::{List, Name, Text};
use ob_types::{Interface, Use};
use std::alloc::{AllocError, Global};

const MAGIC: [u8; 5] = *b"OSYM\x01";

fn may_import(name: &Name) -> bool
    ensures { result ≡ is_import name.now }
{
    name.as_bytes() != b"Out".as_slice() && name.as_bytes() != b"SYSTEM".as_slice()
}

fn all_may_import(names: &[Name]) -> bool
    ensures { result ≡ list_all is_import names.now }
{
    let mut rest = names;
    while let [first, more @ ..] = rest {
        if !may_import(first) {
            return false;
        }
        rest = more;
    }
    true
}

fn is_sound_face(found: &Interface) -> bool
    ensures { result ≡ is_sound found.now }
{
    found.objects.len() <= 4096 && all_may_import(found.imports.as_slice())
}

#[tactic(auto, unfolding(crate::specs::Grammar::face, crate::specs::Grammar::head, crate::specs::Grammar::body, crate::specs::Grammar::depending_at, ob_format::specs::Format::such_that_at, ob_format::specs::Format::lead_at, ob_format::specs::Format::made_at, ob_format::specs::Format::pair_at))]
fn read_face(alloc: Global, bytes: &[u8]) -> Result<(Interface, &[u8]), Fault>
    ensures { Gives (λ x. (x.0, x.1.now)) result (face_form.take bytes.now) }
{
    let rest = skip(&MAGIC, bytes)?;
    match Name::read(alloc, rest) {
        Ok((module, rest)) => {
            let (imports, rest) = few_list::<Name>(alloc, 64, rest)?;
            let (objects, rest) = read_objects(alloc, &module, rest)?;
            let (uses, rest) = rising_list::<Use>(alloc, rest)?;
            let found = Interface {
                module,
                imports,
                objects,
                uses,
            };
            if !is_sound_face(&found) {
                return Err(Fault::Damaged);
            }
            Ok((found, rest))
        }
        Err(fault) => Err(fault),
    }
}

#[tactic(auto, unfolding(ob_format::specs::Format::whole))]
fn read_all(alloc: Global, bytes: &[u8]) -> Result<Interface, Fault>
    ensures { Gives (λ x. x) result (whole face_form bytes.now) }
{
    match read_face(alloc, bytes) {
        Ok((found, rest)) => {
            if rest.is_empty() {
                Ok(found)
            } else {
                Err(Fault::Damaged)
            }
        }
        Err(fault) => Err(fault),
    }
}

/// The interface that a symbol file spells. Each object carries the prints of its own texts.
///
/// `Damaged` comes exactly where the bytes are no symbol file, `Memory` only where memory is
/// wanting. The bytes are read once, from front to back, and no count in them is trusted for an
/// allocation.
pub fn read_sym(alloc: Global, bytes: &[u8]) -> Result<Interface, SymFault>
    // What is read is spelled so.
    ensures found { IfOk result (λ f. face_form.fits f × (bytes.now ≡ face_form.spell f)) }
    // What is spelled so is read, unless memory runs out.
    ensures again { (f : Face) → face_form.fits f → bytes.now ≡ face_form.spell f → MatchResult result (λ g. g ≡ f) (λ e. e ≡ SymFault.Memory) }
{
    match read_all(alloc, bytes) {
        Ok(found) => Ok(found),
        Err(Fault::Damaged) => Err(SymFault::Damaged),
        Err(Fault::Memory) => Err(SymFault::Memory),
    }
}

#[tactic(auto, unfolding(crate::specs::Grammar::face, crate::specs::Grammar::head, crate::specs::Grammar::body), using(ob_format::specs::Exact::then_adds))]
fn write_face(alloc: Global, found: &Interface, out: &mut Vec<u8>) -> Result<(), AllocError>
    requires { face_form.fits found.now }
    ensures { OnOk result (Adds out.old.items out.new.items (face_form.spell found.now)) }
{
    put_bytes(out, &MAGIC)?;
    found.module.write(out)?;
    found.imports.write(out)?;
    write_objects(alloc, &found.module, found.objects.as_slice(), out)?;
    found.uses.write(out)
}

/// The one symbol file of the interface. An error is want of memory alone.
pub fn write_sym(alloc: Global, face: &Interface) -> Result<Text, AllocError>
    // The interface has a symbol file.
    requires { face_form.fits face.now }
    ensures { IfOk result (λ text. text ≡ face_form.spell face.now) }
{
    let mut out = Vec::new(alloc);
    write_face(alloc, face, &mut out)?;
    Text::from_slice(alloc, &out)
}
