//! Keys for two names at once.

ghost use Rattle.std.specs.Prelude.{◌≡◌, IfOk};
ghost use Rattle.ob_cdecl_heading.specs.Keys.{key};

use ob_tree::{Name, ObjName};
use std::alloc::{AllocError, Global};

/// What stands for an identifier and the name of an object at once: two such keys are the same where
/// both names are.
pub fn key_of(alloc: Global, name: &Name, object: &[u8]) -> Result<ObjName, AllocError>
    ensures { IfOk result (λ r. r ≡ key name.now object.now) }
{
    let mut all = Vec::new(alloc);
    'bytes: for byte in name.as_bytes() {
        all.push(1)?;
        all.push(*byte)?;
    }
    all.push(0)?;
    all.extend_from_slice(object)?;
    ObjName::new(alloc, &all)
}
