//! Record types that introduce one more bound procedure.

ghost use Rattle.std.specs.Prelude.{◌≡◌, map, bytes_eq, OnOk, OnErr};
ghost use Rattle.ob_rules.specs.Headings.{change_desc, changed_if, change_type, with_method};
ghost use Rattle.ob_cdecl_scopes.specs.Naming.{type_name};

use ob_types::{Desc, Method, RecordDesc, TypedType};
use ob_types_trees::copy_method;
use std::alloc::{AllocError, Global};

fn push_method(desc: &mut RecordDesc, method: Method) -> Result<(), AllocError>
    ensures { OnOk result (desc.new ≡ with_method desc.old method) }
{
    desc.methods.push(method)
}

fn add_to_desc(alloc: Global, desc: &mut Desc, method: &Method) -> Result<(), AllocError>
    ensures { OnOk result (desc.new ≡ change_desc (λ r. with_method r method.now) desc.old) }
{
    match desc {
        Desc::Record(record) => {
            let method = copy_method(alloc, method)?;
            push_method(record, method)
        }
        _ => Ok(()),
    }
}

fn add_to_type(
    alloc: Global,
    t: &mut TypedType,
    owner: &[u8],
    method: &Method,
) -> Result<(), AllocError>
    ensures ok { OnOk result (t.new ≡ changed_if (bytes_eq t.old.name owner.now) (λ r. with_method r method.now) t.old) }
    ensures name { t.new.name ≡ t.old.name }
{
    if t.name.as_bytes() == owner {
        return add_to_desc(alloc, &mut t.desc, method);
    }
    Ok(())
}

/// The record types of that name have one more bound procedure.
pub(crate) fn add_to_types(
    alloc: Global,
    types: &mut [TypedType],
    owner: &[u8],
    method: &Method,
) -> Result<(), AllocError>
    ensures ok { OnOk result (types.new ≡ change_type owner.now (λ r. with_method r method.now) types.old) }
    ensures names { map type_name types.new ≡ map type_name types.old }
{
    'types: for t in types.iter_mut() {
        add_to_type(alloc, t, owner, method)?;
    }
    Ok(())
}
