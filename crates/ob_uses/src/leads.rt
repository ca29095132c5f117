//! To which types a description leads.

ghost use Rattle.std.specs.Prelude.{◌≡◌, ◌∷◌, [], ◌++◌, OnOk, Bool, map as each};
ghost use Rattle.std.specs.List.{filter, flat_map};
ghost use Rattle.ob_types.specs.declared.types.TypeRef.TheVariants as ref;
ghost use Rattle.ob_types.specs.Maps.{listed, signature_types};
ghost use Rattle.ob_desc.specs.Grammar.{is_shown};
ghost use Rattle.ob_uses.specs.Objects.{shown_types};
ghost use Rattle.ob_uses.specs.Uses.{near_types, flat_types, record_parts};
ghost use Rattle.ob_uses.specs.Ways.{is_of, is_alone, type_names, types_by, desc_leads};

use crate::way::Way;
use ob_tree::{Mark, Name, QName};
use ob_types::{Desc, Field, Method, Mode, RecordDesc, Signature, TypeRef};
use std::alloc::AllocError;

/// Whether the name is one of the module.
pub fn is_own(name: &QName, own: &Name) -> bool
    ensures { result ≡ is_of own.now name.now }
{
    name.module.as_bytes() == own.as_bytes()
}

/// Whether other modules see what has the mark.
pub fn shows(mark: Mark) -> bool
    ensures { result ≡ is_shown mark }
{
    match mark {
        Mark::Full => true,
        Mark::ReadOnly => true,
        Mark::Hidden => false,
    }
}

#[tactic(auto, using(crate::proofs::Leading::names_none))]
fn add_name(left: &mut Vec<QName>, alone: bool, own: &Name, name: &QName) -> Result<(), AllocError>
    ensures { OnOk result (left.new.items ≡ left.old.items ++ type_names alone own.now (ref.Named name.now ∷ [])) }
{
    if alone && !is_own(name, own) {
        return Ok(());
    }
    let copy = name.clone()?;
    left.push(copy)?;
    Ok(())
}

/// Adds the name of the type, where it has one; if `alone`, only where that is one of the module
/// `own`.
#[tactic(auto, using(crate::proofs::Leading::names_none))]
pub fn add_type(
    left: &mut Vec<QName>,
    alone: bool,
    own: &Name,
    t: &TypeRef,
) -> Result<(), AllocError>
    ensures { OnOk result (left.new.items ≡ left.old.items ++ type_names alone own.now (t.now ∷ [])) }
{
    match t {
        TypeRef::Basic(_) => Ok(()),
        TypeRef::Named(name) => add_name(left, alone, own, name),
    }
}

/// Adds the name of the type, where there is one, as `add_type` does.
#[tactic(auto, using(crate::proofs::Leading::names_none))]
pub fn add_optional(
    left: &mut Vec<QName>,
    alone: bool,
    own: &Name,
    t: &Option<TypeRef>,
) -> Result<(), AllocError>
    ensures { OnOk result (left.new.items ≡ left.old.items ++ type_names alone own.now (listed t.now)) }
{
    match t {
        None => Ok(()),
        Some(of) => add_type(left, alone, own, of),
    }
}

fn add_params(
    left: &mut Vec<QName>,
    alone: bool,
    own: &Name,
    params: &[(Mode, TypeRef)],
) -> Result<(), AllocError>
    ensures { OnOk result (left.new.items ≡ left.old.items ++ type_names alone own.now (each (λ p. p.1) params.now)) }
{
    'params: for param in params {
        add_type(left, alone, own, &param.1)?;
    }
    Ok(())
}

#[tactic(auto, using(crate::proofs::Leading::names_two))]
pub fn add_signature(
    left: &mut Vec<QName>,
    alone: bool,
    own: &Name,
    signature: &Signature,
) -> Result<(), AllocError>
    ensures { OnOk result (left.new.items ≡ left.old.items ++ type_names alone own.now (signature_types signature.now)) }
{
    add_params(left, alone, own, signature.params.as_slice())?;
    add_optional(left, alone, own, &signature.result)
}

fn add_fields(
    left: &mut Vec<QName>,
    alone: bool,
    own: &Name,
    fields: &[Field],
) -> Result<(), AllocError>
    ensures { OnOk result (left.new.items ≡ left.old.items ++ type_names alone own.now (each (λ f. f.of) fields.now)) }
{
    'fields: for field in fields {
        add_type(left, alone, own, &field.of)?;
    }
    Ok(())
}

#[tactic(auto, using(crate::proofs::Leading::names_none))]
fn add_shown_field(
    left: &mut Vec<QName>,
    alone: bool,
    own: &Name,
    field: &Field,
) -> Result<(), AllocError>
    ensures { OnOk result (left.new.items ≡ left.old.items ++ type_names alone own.now (each (λ f. f.of) (filter (λ f. is_shown f.mark) (field.now ∷ [])))) }
{
    if !shows(field.mark) {
        return Ok(());
    }
    add_type(left, alone, own, &field.of)
}

fn add_shown_fields(
    left: &mut Vec<QName>,
    alone: bool,
    own: &Name,
    fields: &[Field],
) -> Result<(), AllocError>
    ensures { OnOk result (left.new.items ≡ left.old.items ++ type_names alone own.now (each (λ f. f.of) (filter (λ f. is_shown f.mark) fields.now))) }
{
    'fields: for field in fields {
        add_shown_field(left, alone, own, field)?;
    }
    Ok(())
}

#[tactic(auto, using(crate::proofs::Leading::names_none, crate::proofs::Leading::one_method))]
fn add_shown_method(
    left: &mut Vec<QName>,
    alone: bool,
    own: &Name,
    method: &Method,
) -> Result<(), AllocError>
    ensures { OnOk result (left.new.items ≡ left.old.items ++ type_names alone own.now (flat_map (λ p. signature_types p.signature) (filter (λ p. is_shown p.mark) (method.now ∷ [])))) }
{
    if !shows(method.mark) {
        return Ok(());
    }
    add_signature(left, alone, own, &method.signature)
}

fn add_shown_methods(
    left: &mut Vec<QName>,
    alone: bool,
    own: &Name,
    methods: &[Method],
) -> Result<(), AllocError>
    ensures { OnOk result (left.new.items ≡ left.old.items ++ type_names alone own.now (flat_map (λ p. signature_types p.signature) (filter (λ p. is_shown p.mark) methods.now))) }
{
    'methods: for method in methods {
        add_shown_method(left, alone, own, method)?;
    }
    Ok(())
}

fn add_near(left: &mut Vec<QName>, alone: bool, own: &Name, desc: &Desc) -> Result<(), AllocError>
    ensures { OnOk result (left.new.items ≡ left.old.items ++ type_names alone own.now (near_types desc.now)) }
{
    match desc {
        Desc::Const(_) => add_optional(left, alone, own, &None),
        Desc::Var(_, _) => add_optional(left, alone, own, &None),
        Desc::Proc(_) => add_optional(left, alone, own, &None),
        Desc::Alias(_, t) => add_type(left, alone, own, t),
        Desc::Array(_, _, t) => add_type(left, alone, own, t),
        Desc::OpenArray(_, t) => add_type(left, alone, own, t),
        Desc::Pointer(_, t) => add_type(left, alone, own, t),
        Desc::ProcType(_, signature) => add_signature(left, alone, own, signature),
        Desc::Record(record) => add_optional(left, alone, own, &record.base),
    }
}

#[tactic(auto, using(crate::proofs::Leading::names_two))]
fn add_parts(
    left: &mut Vec<QName>,
    alone: bool,
    own: &Name,
    inside: bool,
    found: &RecordDesc,
) -> Result<(), AllocError>
    ensures { OnOk result (left.new.items ≡ left.old.items ++ type_names alone own.now (record_parts inside found.now)) }
{
    if !inside {
        return add_optional(left, alone, own, &None);
    }
    add_optional(left, alone, own, &found.base)?;
    add_fields(left, alone, own, found.fields.as_slice())
}

fn add_flat(
    left: &mut Vec<QName>,
    alone: bool,
    own: &Name,
    inside: bool,
    desc: &Desc,
) -> Result<(), AllocError>
    ensures { OnOk result (left.new.items ≡ left.old.items ++ type_names alone own.now (flat_types inside desc.now)) }
{
    match desc {
        Desc::Const(_) => add_optional(left, alone, own, &None),
        Desc::Var(_, _) => add_optional(left, alone, own, &None),
        Desc::Proc(_) => add_optional(left, alone, own, &None),
        Desc::Alias(_, t) => add_type(left, alone, own, t),
        Desc::Array(_, _, t) => add_type(left, alone, own, t),
        Desc::OpenArray(_, t) => add_type(left, alone, own, t),
        Desc::Pointer(_, _) => add_optional(left, alone, own, &None),
        Desc::ProcType(_, _) => add_optional(left, alone, own, &None),
        Desc::Record(found) => add_parts(left, alone, own, inside, found),
    }
}

#[tactic(auto, using(crate::proofs::Leading::names_three))]
fn add_shown_record(
    left: &mut Vec<QName>,
    alone: bool,
    own: &Name,
    found: &RecordDesc,
) -> Result<(), AllocError>
    ensures { OnOk result (left.new.items ≡ left.old.items ++ type_names alone own.now (listed found.now.base ++ each (λ f. f.of) (filter (λ f. is_shown f.mark) found.now.fields) ++ flat_map (λ p. signature_types p.signature) (filter (λ p. is_shown p.mark) found.now.methods))) }
{
    add_optional(left, alone, own, &found.base)?;
    add_shown_fields(left, alone, own, found.fields.as_slice())?;
    add_shown_methods(left, alone, own, found.methods.as_slice())
}

fn add_shown(left: &mut Vec<QName>, alone: bool, own: &Name, desc: &Desc) -> Result<(), AllocError>
    ensures { OnOk result (left.new.items ≡ left.old.items ++ type_names alone own.now (shown_types desc.now)) }
{
    match desc {
        Desc::Const(_) => add_optional(left, alone, own, &None),
        Desc::Var(_, _) => add_optional(left, alone, own, &None),
        Desc::Proc(_) => add_optional(left, alone, own, &None),
        Desc::Alias(_, t) => add_type(left, alone, own, t),
        Desc::Array(_, _, t) => add_type(left, alone, own, t),
        Desc::OpenArray(_, t) => add_type(left, alone, own, t),
        Desc::Pointer(_, t) => add_type(left, alone, own, t),
        Desc::ProcType(_, signature) => add_signature(left, alone, own, signature),
        Desc::Record(found) => add_shown_record(left, alone, own, found),
    }
}

/// Adds the names to which a name with this description leads.
pub fn add_leads(
    left: &mut Vec<QName>,
    way: Way,
    own: &Name,
    name: &QName,
    desc: &Desc,
) -> Result<(), AllocError>
    ensures { OnOk result (left.new.items ≡ left.old.items ++ desc_leads way own.now name.now desc.now) }
{
    match way {
        Way::Near => add_near(left, false, own, desc),
        Way::Flat => add_flat(left, false, own, is_own(name, own), desc),
        Way::Shown => add_shown(left, true, own, desc),
    }
}
