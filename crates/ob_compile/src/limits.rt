//! The limits behind the rules, in their order: sizes, operands, code, files.

ghost use Rattle.std.specs.Prelude.{◌≡◌, Option, true, false, IfOk, OnOk};
ghost use Rattle.std.specs.Result.{IsErrOf};
ghost use Rattle.ob_tree.specs.declared.names.QName.{QName};
ghost use Rattle.ob_tree.specs.declared.which.Which.TheVariants as which;
ghost use Rattle.ob_types.specs.declared.desc.Desc.{Desc};
ghost use Rattle.ob_types.specs.TypedView.{module_view};
ghost use Rattle.ob_scheme.specs.Needs.{has_few_operands as few_operands};
ghost use Rattle.ob_compile_model.specs.Compiling.{within, exceeds, exceeded, limit_of_operands, limit_of_code, object_with, prints};
ghost use Rattle.ob_compile.specs.Steps.{compiled_of, short_code, Makes};
ghost use Rattle.ob_compile.specs.Showing.{IsShown};

use crate::answers::over_limit;
use crate::files::written;
use crate::held::{ObjectFile, ShownFace};
use crate::shown::{copy_uses, exports_of, shown};
use ob_compile_model::CompileFault;
use ob_compile_trait::Built;
use ob_env::{Env, View};
use ob_gproc::{GenFault, object_file};
use ob_gproc_operands::has_few_operands;
use ob_layout::first_limit;
use ob_tree::Which;
use ob_types::{Interface, TypedModule};
use std::alloc::Global;

// The limit of operands, where a module exceeds it.
fn limit_of_operands(module: &TypedModule) -> Option<Which>
    ensures { (types : QName → Option Desc) → result ≡ exceeded (few_operands types (module_view «module».now)) which.Operands }
{
    if has_few_operands(module) {
        None
    } else {
        Some(Which::Operands)
    }
}

// The object file of a module with that interface; `Limit(Code)` where the module exceeds the limit
// of code.
fn object_with(alloc: Global, view: &View<'_>, face: &Interface) -> Result<ObjectFile, GenFault>
    ensures made { IfOk result (λ o. o.file ≡ object_with (compiled_of view.now.env.now view.now.«module».now) face.now) }
    ensures short { OnOk result (short_code (compiled_of view.now.env.now view.now.«module».now) ≡ true) }
    ensures long { IsErrOf result (GenFault.Limit which.Code) → short_code (compiled_of view.now.env.now view.now.«module».now) ≡ false }
{
    let objects = face.objects.as_slice();
    let Ok(exports) = exports_of(alloc, objects) else {
        return Err(GenFault::Memory);
    };
    let used = face.uses.as_slice();
    let Ok(uses) = copy_uses(alloc, used) else {
        return Err(GenFault::Memory);
    };
    match object_file(alloc, view, view.module(), exports, uses) {
        Ok(file) => Ok(ObjectFile { file }),
        Err(fault) => Err(fault),
    }
}

// Makes the files of a module that keeps the limits of sizes and operands. The other faults of the
// generator say nothing of the module, so they are answered as want of memory.
fn coded(alloc: Global, view: &View<'_>, shown: ShownFace) -> Result<Built, CompileFault>
    requires { IsShown shown.face view.now.env.now view.now.«module».now }
    ensures { Makes (within (compiled_of view.now.env.now view.now.«module».now) (limit_of_code prints (compiled_of view.now.env.now view.now.«module».now))) result }
{
    match object_with(alloc, view, &shown.face) {
        Ok(object) => written(alloc, shown, &object.file),
        Err(GenFault::Limit(Which::Code)) => Err(over_limit(Which::Code)),
        Err(_) => Err(CompileFault::Memory),
    }
}

// Makes the files of a module that keeps the limits of sizes.
fn sized(alloc: Global, view: &View<'_>, shown: ShownFace) -> Result<Built, CompileFault>
    requires { IsShown shown.face view.now.env.now view.now.«module».now }
    ensures { Makes (within (compiled_of view.now.env.now view.now.«module».now) (limit_of_operands prints (compiled_of view.now.env.now view.now.«module».now))) result }
{
    match limit_of_operands(view.module()) {
        Some(which) => Err(over_limit(which)),
        None => coded(alloc, view, shown),
    }
}

// Makes the files of a module with that interface.
fn faced(alloc: Global, view: &View<'_>, shown: ShownFace) -> Result<Built, CompileFault>
    requires { IsShown shown.face view.now.env.now view.now.«module».now }
    ensures { Makes (within (compiled_of view.now.env.now view.now.«module».now) (exceeds prints (compiled_of view.now.env.now view.now.«module».now))) result }
{
    let Ok(limit) = first_limit(alloc, view, view.module(), shown.face.objects.len()) else {
        return Err(CompileFault::Memory);
    };
    match limit {
        Some(which) => Err(over_limit(which)),
        None => sized(alloc, view, shown),
    }
}

// Makes the files of a module, by the view from it.
fn viewed(alloc: Global, view: &View<'_>) -> Result<Built, CompileFault>
    ensures { Makes (within (compiled_of view.now.env.now view.now.«module».now) (exceeds prints (compiled_of view.now.env.now view.now.«module».now))) result }
{
    let Ok(shown) = shown(alloc, view) else {
        return Err(CompileFault::Memory);
    };
    faced(alloc, view, shown)
}

/// Makes the files of a module that is laid out over its environment, unless it exceeds a limit.
pub fn measured(alloc: Global, env: &Env, module: &TypedModule) -> Result<Built, CompileFault>
    ensures { Makes (within (compiled_of env.now «module».now) (exceeds prints (compiled_of env.now «module».now))) result }
{
    let Ok(view) = View::new(alloc, module, env) else {
        return Err(CompileFault::Memory);
    };
    viewed(alloc, &view)
}
