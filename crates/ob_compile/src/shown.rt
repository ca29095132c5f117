//! What a compiled module shows to others, and what it exports and uses in its object file.

ghost use Rattle.std.specs.Prelude.{◌≡◌, [], ◌∷◌, ◌++◌, IfOk, OnOk};
ghost use Rattle.std.specs.List.{flat_map};
ghost use Rattle.ob_compile_model.specs.Compiling.{object_exports, layout_export};
ghost use Rattle.ob_compile.specs.Showing.{IsShown};

use crate::held::ShownFace;
use crate::prints::EnvPrints;
use ob_env::View;
use ob_obj::Export;
use ob_tree::{List, ObjName, Print};
use ob_types::{Aspect, Object, Use};
use ob_types_trees::copy_name;
use ob_uses::view_is_held;
use ob_uses_interface::interface_of;
use std::alloc::{AllocError, Global};

/// The interface of a module that is laid out.
pub fn shown(alloc: Global, view: &View<'_>) -> Result<ShownFace, AllocError>
    ensures { IfOk result (λ s. IsShown s.face view.now.env.now view.now.«module».now) }
{
    view_is_held();
    let has = EnvPrints { env: view.env() };
    let face = interface_of(alloc, view, &has, view.module())?;
    Ok(ShownFace { face })
}

fn put_layout(
    exports: &mut List<Export>,
    name: &ObjName,
    layout: Option<Print>,
) -> Result<(), AllocError>
    ensures { OnOk result (exports.new ≡ exports.old ++ layout_export name.now layout) }
{
    match layout {
        None => Ok(()),
        Some(print) => {
            let name = name.clone()?;
            exports.push(Export {
                name,
                aspect: Aspect::Layout,
                print,
            })
        }
    }
}

fn put_shape(exports: &mut List<Export>, name: &ObjName, print: Print) -> Result<(), AllocError>
    ensures { OnOk result (exports.new ≡ exports.old ++ record { name = name.now; aspect = Aspect.Shape; print = print } ∷ []) }
{
    let name = name.clone()?;
    exports.push(Export {
        name,
        aspect: Aspect::Shape,
        print,
    })
}

fn put_object(exports: &mut List<Export>, object: &Object) -> Result<(), AllocError>
    ensures { OnOk result (exports.new ≡ exports.old ++ object_exports object.now) }
{
    put_shape(exports, &object.name, object.shape)?;
    put_layout(exports, &object.name, object.layout)?;
    Ok(())
}

/// What an object file exports, by the objects of its interface.
pub fn exports_of(alloc: Global, objects: &[Object]) -> Result<List<Export>, AllocError>
    ensures { IfOk result (λ l. l ≡ flat_map object_exports objects.now) }
{
    let mut exports = List::new(alloc);
    'objects: for object in objects {
        put_object(&mut exports, object)?;
    }
    Ok(exports)
}

fn copy_use(of: &Use) -> Result<Use, AllocError>
    ensures { IfOk result (λ u. u ≡ of.now) }
{
    let object = copy_name(&of.object)?;
    Ok(Use {
        object,
        aspect: of.aspect,
        print: of.print,
    })
}

/// Uses once more.
pub fn copy_uses(alloc: Global, uses: &[Use]) -> Result<List<Use>, AllocError>
    ensures { IfOk result (λ l. l ≡ uses.now) }
{
    let mut all = List::new(alloc);
    'uses: for of in uses {
        let copy = copy_use(of)?;
        all.push(copy)?;
    }
    Ok(all)
}
