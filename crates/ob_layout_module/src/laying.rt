//! The records of a module, laid out.

ghost use Rattle.std.specs.Prelude.{◌≡◌, OnOk, OnErr, IfOk, map};
ghost use Rattle.ob_types.specs.TypedView.{module_view};
ghost use Rattle.ob_layout.specs.LaidOut.{laid_out, laid_type};
ghost use Rattle.ob_env.specs.Faces.{faces_of, described};

use crate::records::laid_types;
use crate::sums::all_rows;
use ob_env::{Env, View};
use ob_tree::List;
use ob_types::{TypedModule, TypedType};
use std::alloc::{AllocError, Global};

fn types_of(alloc: Global, env: &Env, module: &TypedModule) -> Result<List<TypedType>, AllocError>
    ensures { IfOk result (λ l. l ≡ map (laid_type (described (faces_of env.now)) (module_view «module».now)) «module».now.types) }
{
    let view = View::new(alloc, module, env)?;
    let rows = all_rows(alloc, &view)?;
    let types = laid_types(alloc, &view, &rows, module.types.as_slice())?;
    Ok(types)
}

/// Lays the module's own records out over its environment: the places of their fields, the numbers
/// of the bound procedures that they introduce, their words and the number of their bound
/// procedures. The fields stay in the order of the text. After an `Err`, which is want of memory, the
/// module is as before.
pub fn lay_out(alloc: Global, env: &Env, module: &mut TypedModule) -> Result<(), AllocError>
    ensures ok { OnOk result (module_view «module».new ≡ laid_out (described (faces_of env.now)) (module_view «module».old)) }
    ensures err { OnErr result («module».new ≡ «module».old) }
{
    let types = types_of(alloc, env, module)?;
    module.types = types;
    Ok(())
}
