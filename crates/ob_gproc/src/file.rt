//! The object file of a checked module.

ghost use Rattle.std.specs.Prelude.{◌≡◌, ◌↔◌, IfOk, OnOk, true, false};
ghost use Rattle.std.specs.Result.{IsErrOf};
ghost use Rattle.ob_tree.specs.declared.which.Which.{Which as AnyLimit};
ghost use Rattle.ob_tree.specs.declared.which.Which.TheVariants as which;
ghost use Rattle.ob_types.specs.TypedView.{module_view};
ghost use Rattle.ob_scheme.specs.Needs.{has_few_operands as few_operands, has_short_code as short_code};
ghost use Rattle.ob_scheme.specs.Object.{object_file};
ghost use Rattle.ob_gproc.specs.Limits.{first_limit_of_code};

use crate::fault::GenFault;
use crate::whole::parts_of_file;
use ob_gexpr_code::CodeFault;
use ob_gproc_length::has_short_code;
use ob_gproc_operands::has_few_operands;
use ob_obj::{Export, ObjFile};
use ob_tree::{List, Which};
use ob_types::{TypedModule, Types, Use};
use std::alloc::Global;

/// The object file of a checked module that is laid out: `types` has the descriptions of its own
/// types and of those around it, `exports` its exported objects with their prints, and `uses` what
/// it was compiled against.
///
/// `Limit(Operands)` exactly where the module exceeds that limit, and `Limit(Code)` exactly where it
/// keeps that one and exceeds the limit of code; the limits before them are asked before, and no
/// other is answered. `Memory` where memory is wanting.
pub fn object_file<T: Types>(
    alloc: Global,
    types: &T,
    unit: &TypedModule,
    exports: List<Export>,
    uses: List<Use>,
) -> Result<ObjFile, GenFault>
    ensures file { IfOk result (λ f. f ≡ object_file (T.types types.now) (module_view unit.now) exports uses) }
    ensures few { OnOk result (few_operands (T.types types.now) (module_view unit.now) ≡ true) }
    ensures short { OnOk result (short_code (T.types types.now) (module_view unit.now) ≡ true) }
    ensures limit { (w : AnyLimit) → IsErrOf result (GenFault.Limit w) ↔ (first_limit_of_code (T.types types.now) (module_view unit.now) ≡ Some w) }
    ensures operands { IsErrOf result (GenFault.Limit which.Operands) → few_operands (T.types types.now) (module_view unit.now) ≡ false }
    ensures code { IsErrOf result (GenFault.Limit which.Code) → (few_operands (T.types types.now) (module_view unit.now) ≡ true) × (short_code (T.types types.now) (module_view unit.now) ≡ false) }
    ensures many { few_operands (T.types types.now) (module_view unit.now) ≡ false → IsErrOf result (GenFault.Limit which.Operands) }
    ensures long { few_operands (T.types types.now) (module_view unit.now) ≡ true → short_code (T.types types.now) (module_view unit.now) ≡ false → IsErrOf result (GenFault.Limit which.Code) }
{
    if !has_few_operands(unit) {
        return Err(GenFault::Limit(Which::Operands));
    }
    if !has_short_code(types, unit) {
        return Err(GenFault::Limit(Which::Code));
    }
    match parts_of_file(alloc, types, unit) {
        Ok(parts) => Ok(parts.into_file(unit.name, exports, uses)),
        Err(CodeFault::Beyond) => Err(GenFault::Beyond),
        Err(CodeFault::Memory) => Err(GenFault::Memory),
    }
}
