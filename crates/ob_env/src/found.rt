//! What stands at a position of the interfaces.

ghost use Rattle.std.specs.Prelude.{◌≡◌, IfOk, slice_get};
ghost use Rattle.std.specs.Option.{option_copied, option_map};
ghost use Rattle.ob_env_files.specs.Names.{under_names};
ghost use Rattle.ob_layout.specs.Index.{IsIndexOf};
ghost use Rattle.ob_env.specs.Found.{place_in};
ghost use Rattle.ob_env.specs.Found.{module_names, object_placed};

use indexmap::IndexMap;
use ob_env_files::SymbolFile;
use ob_layout::{NameIndex, item_at};
use ob_tree::ObjName;
use ob_types::Object;
use std::alloc::{AllocError, Global};

/// The object of a name in the interface at a position.
pub fn placed<'a>(faces: &'a [SymbolFile], at: usize, name: &ObjName) -> Option<&'a Object>
    ensures { option_copied result ≡ object_placed faces.now at name.now }
{
    match item_at(faces, at) {
        None => None,
        Some(face) => face.object(name),
    }
}

/// The objects of the interface at a position, under their names.
#[tactic(auto, using(crate::proofs::Places::indexed_none, crate::proofs::Places::indexed_some))]
pub fn index_placed(faces: &[SymbolFile], at: usize) -> Option<&IndexMap<ObjName, Object>>
    ensures { option_map (λ m. m.entries) (option_copied result) ≡ option_map (λ i. under_names i.objects) (slice_get faces.now at) }
{
    match item_at(faces, at) {
        None => None,
        Some(face) => Some(face.index()),
    }
}

/// The position of a name in the interface at a position.
pub fn position_placed(faces: &[SymbolFile], at: usize, name: &ObjName) -> Option<usize>
    ensures { result ≡ place_in faces.now at name.now }
{
    match item_at(faces, at) {
        None => None,
        Some(face) => face.position(name),
    }
}

/// The position of the name of these bytes in the interface at a position.
pub fn position_of_placed(faces: &[SymbolFile], at: usize, name: &[u8]) -> Option<usize>
    ensures { result ≡ place_in faces.now at name.now }
{
    match item_at(faces, at) {
        None => None,
        Some(face) => face.position_of(name),
    }
}

/// The positions of modules.
pub fn modules_of(alloc: Global, faces: &[SymbolFile]) -> Result<NameIndex, AllocError>
    ensures { IfOk result (λ index. IsIndexOf index.positions (module_names faces.now)) }
{
    let mut index = NameIndex::new(alloc);
    let mut at = 0;
    let mut rest = faces;
    while let [first, more @ ..] = rest {
        index.note(alloc, first.module().as_bytes(), at)?;
        at += 1;
        rest = more;
    }
    Ok(index)
}
