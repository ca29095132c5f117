//! The interface of a module.

ghost use Rattle.std.specs.Prelude.{◌≡◌, List, length, IfOk, map as each};
ghost use Rattle.ob_tree.specs.declared.names.QName.{QName as Named};
ghost use Rattle.ob_types.specs.TypedView.{module_view};
ghost use Rattle.ob_env.specs.Faces.{interface_of as with_prints};
ghost use Rattle.ob_uses.specs.Ways.{AreAllNames};
ghost use Rattle.ob_uses.specs.Objects.{HasOwnTypes};
ghost use Rattle.ob_uses.specs.Made.{face_over};

use crate::objects::objects_of;
use ob_tree::{List, Name};
use ob_types::{Interface, TypedModule, Types};
use ob_uses::{Prints, uses_of};
use std::alloc::{AllocError, Global};

fn copied(alloc: Global, names: &[Name]) -> Result<List<Name>, AllocError>
    ensures { IfOk result (λ l. l ≡ names.now) }
{
    List::from_slice(alloc, names)
}

/// The interface of a module that is laid out: its imports, its objects with the prints of their
/// texts, and its uses. An error is want of memory alone.
pub fn interface_of<T: Types, P: Prints>(
    alloc: Global,
    types: &T,
    prints: &P,
    module: &TypedModule,
) -> Result<Interface, AllocError>
    requires { HasOwnTypes (T.types types.now) (module_view «module».now) }
    ensures value { IfOk result (λ i. i ≡ with_prints (face_over (T.types types.now) (length (T.finite types.now).0) (P.prints prints.now) (module_view «module».now))) }
    ensures steps { (names : List Named) → AreAllNames (T.types types.now) names
        → IfOk result (λ i. i ≡ with_prints (face_over (T.types types.now) (length names) (P.prints prints.now) (module_view «module».now))) }
{
    let imports = copied(alloc, module.imports.as_slice())?;
    let objects = objects_of(alloc, types, module)?;
    let uses = uses_of(alloc, types, prints, module)?;
    Ok(Interface {
        module: module.name,
        imports,
        objects,
        uses,
    })
}
