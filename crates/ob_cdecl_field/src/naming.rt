//! The names of types that have none of their own.

ghost use Rattle.std.specs.Prelude.{◌≡◌, ◌++◌, IfOk};
ghost use Rattle.ob_rules.specs.Types as spec;

use itoa::Buffer;
use ob_tree::ObjName;
use std::alloc::{AllocError, Global};

// A name with something behind it.
fn with_end(alloc: Global, name: &[u8], end: &[u8]) -> Result<ObjName, AllocError>
    ensures { IfOk result (λ r. r ≡ name.now ++ end.now) }
{
    let mut all = Vec::from_slice(alloc, name)?;
    all.extend_from_slice(end)?;
    ObjName::new(alloc, &all)
}

/// The name of what the pointer type of that name points to.
pub fn base_name(alloc: Global, name: &[u8]) -> Result<ObjName, AllocError>
    ensures { IfOk result (λ r. r ≡ spec.base_name name.now) }
{
    with_end(alloc, name, b"^".as_slice())
}

/// The name of the elements of the array type of that name.
pub fn element_name(alloc: Global, name: &[u8]) -> Result<ObjName, AllocError>
    ensures { IfOk result (λ r. r ≡ spec.element_name name.now) }
{
    with_end(alloc, name, b"[".as_slice())
}

/// The name of the type of the fields of which `field` is the first, in the record type of that
/// name.
pub fn field_name(alloc: Global, name: &[u8], field: &[u8]) -> Result<ObjName, AllocError>
    ensures { IfOk result (λ r. r ≡ spec.field_name name.now field.now) }
{
    let behind = with_end(alloc, name, b".".as_slice())?;
    with_end(alloc, behind.as_bytes(), field)
}

/// The name of the type of the parameters from that number on, counted from 1, of the procedure or
/// procedure type of that name.
pub fn section_name(alloc: Global, name: &[u8], number: usize) -> Result<ObjName, AllocError>
    ensures { IfOk result (λ r. r ≡ spec.section_name name.now number) }
{
    let behind = with_end(alloc, name, b"(".as_slice())?;
    let mut buffer = Buffer::new();
    with_end(alloc, behind.as_bytes(), buffer.format(number).as_bytes())
}
