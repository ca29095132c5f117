//! Types as they are made: a type with the types that it makes, parameters with theirs.

ghost use Rattle.std.specs.Prelude.{◌≡◌, ◌++◌, ◌∷◌, IfOk, OnOk};
ghost use Rattle.ob_cdecl_scopes.specs.Scopes.{around_of};
ghost use Rattle.ob_rules.specs.Types as spec;
ghost use Rattle.ob_rules.specs.Names.{Around};
ghost use Rattle.ob_cdecl_field.specs.Makes.{typing_of};

use ob_cdecl_scopes::{Imports, Scope};
use ob_rules::Surroundings;
use ob_tree::{CompactName, List, ObjName, QName};
use ob_types::{Desc, Signature, TypeRef, TypedParameter, TypedType};
use ob_types_trees::copy_desc;
use std::alloc::{AllocError, Global};

/// A type, and the types that it makes, in the order in which they begin in the text.
#[derive(Drop)]
pub struct Typed {
    pub of: TypeRef,
    pub made: List<TypedType>,
}

/// The parameters of a heading or of a procedure type, as they are known inside, and the types that
/// they make.
#[derive(Drop)]
pub struct Parameters {
    pub signature: Signature,
    pub parameters: List<TypedParameter>,
    pub made: List<TypedType>,
}

/// A type of that name and description, and the types behind it.
pub fn typed_as<E: Imports>(
    alloc: Global,
    scope: &Scope<'_, E>,
    name: &[u8],
    desc: Desc,
    more: List<TypedType>,
) -> Result<Typed, AllocError>
    ensures { IfOk result (λ r. typing_of r ≡ spec.typed_as (around_of E.types scope.now) name.now desc more) }
{
    let object = ObjName::new(alloc, name)?;
    let of = TypeRef::Named(QName {
        module: CompactName::of(alloc, &scope.unit())?,
        object,
    });
    let name = ObjName::new(alloc, name)?;
    let mut made = List::new(alloc);
    made.push(TypedType { name, desc })?;
    made.append(more)?;
    Ok(Typed { of, made })
}

/// A type that is the same. An `Err` is a want of memory.
pub fn copy_typed(alloc: Global, t: &TypedType) -> Result<TypedType, AllocError>
    ensures { IfOk result (λ r. r ≡ t.now) }
{
    let name = ObjName::new(alloc, t.name.as_bytes())?;
    let desc = copy_desc(alloc, &t.desc)?;
    Ok(TypedType { name, desc })
}

/// From here on the module has these types too.
pub fn add_types<E: Imports>(
    alloc: Global,
    scope: &mut Scope<'_, E>,
    types: &[TypedType],
) -> Result<(), AllocError>
    ensures { OnOk result (around_of E.types scope.new ≡ spec.with_types (around_of E.types scope.old) types.now) }
{
    let mut i = types.len();
    'types: while i > 0 {
        i -= 1;
        let t = copy_typed(alloc, &types[i])?;
        scope.add_type(alloc, t)?;
    }
    Ok(())
}
