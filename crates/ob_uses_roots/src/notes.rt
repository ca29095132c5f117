//! Notes of what counts.

ghost use Rattle.std.specs.Prelude.{◌≡◌, ◌∷◌, [], ◌++◌, OnOk, map as each};
ghost use Rattle.std.specs.List.{flat_map};
ghost use Rattle.ob_types.specs.declared.types.TypeRef.TheVariants as ref;
ghost use Rattle.ob_types.specs.Maps.{listed, signature_types};
ghost use Rattle.ob_uses_roots.specs.Counts.{Shapes, Layouts, both, shapes, formal_counts};
ghost use Rattle.ob_uses_roots.specs.Noted.{noted};

use crate::noted::Noted;
use ob_tree::{CompactName, Name, ObjName, QName};
use ob_types::{Mode, Signature, TypeRef};
use std::alloc::{AllocError, Global};

/// The shapes of the named type and of those near it count.
#[tactic(auto, unfolding(crate::specs::Noted::noted))]
pub fn note_named(found: &mut Noted, name: &QName) -> Result<(), AllocError>
    ensures { OnOk result (found.new ≡ noted found.old (Shapes (ref.Named name.now) ∷ [])) }
{
    let copy = name.clone()?;
    found.shapes.push(copy)?;
    Ok(())
}

/// The shapes of the module's own type of that name and of those near it count.
#[tactic(auto, unfolding(crate::specs::Noted::noted))]
pub fn note_own(
    alloc: Global,
    found: &mut Noted,
    module: &Name,
    name: &ObjName,
) -> Result<(), AllocError>
    ensures { OnOk result (found.new ≡ noted found.old (Shapes (ref.Named (record { «module» = «module».now; object = name.now })) ∷ [])) }
{
    let module = CompactName::of(alloc, module)?;
    let object = name.clone()?;
    found.shapes.push(QName { module, object })?;
    Ok(())
}

/// The shapes of the type and of those near it count.
#[tactic(auto, unfolding(crate::specs::Noted::noted))]
pub fn note_shape(found: &mut Noted, t: &TypeRef) -> Result<(), AllocError>
    ensures { OnOk result (found.new ≡ noted found.old (Shapes t.now ∷ [])) }
{
    match t {
        TypeRef::Basic(_) => Ok(()),
        TypeRef::Named(name) => note_named(found, name),
    }
}

/// The layout of the type counts.
#[tactic(auto, unfolding(crate::specs::Noted::noted))]
pub fn note_layout(found: &mut Noted, t: &TypeRef) -> Result<(), AllocError>
    ensures { OnOk result (found.new ≡ noted found.old (Layouts t.now ∷ [])) }
{
    match t {
        TypeRef::Basic(_) => Ok(()),
        TypeRef::Named(name) => {
            let copy = name.clone()?;
            found.layouts.push(copy)?;
            Ok(())
        }
    }
}

/// Both the shapes and the layout of the type count.
#[tactic(auto, using(crate::proofs::Parting::note_first))]
pub fn note_both(found: &mut Noted, t: &TypeRef) -> Result<(), AllocError>
    ensures { OnOk result (found.new ≡ noted found.old (both t.now)) }
{
    note_shape(found, t)?;
    note_layout(found, t)
}

/// The shapes of a type count, and those of the record type that a guard tests for.
#[tactic(auto, using(crate::proofs::Parting::note_first))]
pub fn note_guard(found: &mut Noted, t: &TypeRef, target: &QName) -> Result<(), AllocError>
    ensures { OnOk result (found.new ≡ noted found.old (Shapes t.now ∷ Shapes (ref.Named target.now) ∷ [])) }
{
    note_shape(found, t)?;
    note_named(found, target)
}

fn note_params(found: &mut Noted, params: &[(Mode, TypeRef)]) -> Result<(), AllocError>
    ensures { OnOk result (found.new ≡ noted found.old (shapes (each (λ p. p.1) params.now))) }
{
    'params: for param in params {
        note_shape(found, &param.1)?;
    }
    Ok(())
}

/// The shapes of the result count, where there is one.
#[tactic(auto, using(crate::proofs::Parting::note_none))]
pub fn note_result(found: &mut Noted, t: &Option<TypeRef>) -> Result<(), AllocError>
    ensures { OnOk result (found.new ≡ noted found.old (shapes (listed t.now))) }
{
    match t {
        None => Ok(()),
        Some(of) => note_shape(found, of),
    }
}

/// The shapes of the parameters and of the result count.
#[tactic(auto, using(crate::proofs::Parting::note_all_types))]
pub fn note_signature(found: &mut Noted, signature: &Signature) -> Result<(), AllocError>
    ensures { OnOk result (found.new ≡ noted found.old (shapes (signature_types signature.now))) }
{
    note_params(found, signature.params.as_slice())?;
    note_result(found, &signature.result)
}

/// The shapes of a declared parameter count, and of one by value its layout.
pub fn note_formal(found: &mut Noted, mode: Mode, t: &TypeRef) -> Result<(), AllocError>
    ensures { OnOk result (found.new ≡ noted found.old (formal_counts (mode, t.now))) }
{
    match mode {
        Mode::Value => note_both(found, t),
        Mode::Var => note_shape(found, t),
    }
}
