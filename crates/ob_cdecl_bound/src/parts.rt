//! The types that a description names, and those that it stands on.

ghost use Rattle.std.specs.Prelude.{◌≡◌, ◌++◌, ◌∷◌, [], map, IfOk, OnOk};
ghost use Rattle.std.specs.List.{flat_map};
ghost use Rattle.ob_types.specs.Maps as spec;

use ob_tree::List;
use ob_types::{Desc, Field, Method, Mode, RecordDesc, Signature, TypeRef};
use ob_types_trees::copy_type;
use std::alloc::{AllocError, Global};

fn add_params(types: &mut List<TypeRef>, params: &[(Mode, TypeRef)]) -> Result<(), AllocError>
    ensures { OnOk result (types.new ≡ types.old ++ map (λ p. p.1) params.now) }
{
    'params: for param in params {
        let t = copy_type(&param.1)?;
        types.push(t)?;
    }
    Ok(())
}

fn add_listed(types: &mut List<TypeRef>, t: &Option<TypeRef>) -> Result<(), AllocError>
    ensures { OnOk result (types.new ≡ types.old ++ spec.listed t.now) }
{
    match t {
        None => Ok(()),
        Some(t) => {
            let t = copy_type(t)?;
            types.push(t)?;
            Ok(())
        }
    }
}

fn add_signature(types: &mut List<TypeRef>, signature: &Signature) -> Result<(), AllocError>
    ensures { OnOk result (types.new ≡ types.old ++ spec.signature_types signature.now) }
{
    add_params(types, signature.params.as_slice())?;
    add_listed(types, &signature.result)?;
    Ok(())
}

fn add_fields(types: &mut List<TypeRef>, fields: &[Field]) -> Result<(), AllocError>
    ensures { OnOk result (types.new ≡ types.old ++ map (λ f. f.of) fields.now) }
{
    'fields: for field in fields {
        let t = copy_type(&field.of)?;
        types.push(t)?;
    }
    Ok(())
}

fn add_methods(types: &mut List<TypeRef>, methods: &[Method]) -> Result<(), AllocError>
    ensures { OnOk result (types.new ≡ types.old ++ flat_map (λ m. spec.signature_types m.signature) methods.now) }
{
    'methods: for method in methods {
        add_signature(types, &method.signature)?;
    }
    Ok(())
}

fn signature_types(alloc: Global, signature: &Signature) -> Result<List<TypeRef>, AllocError>
    ensures { IfOk result (λ r. r ≡ spec.signature_types signature.now) }
{
    let mut types = List::new(alloc);
    add_signature(&mut types, signature)?;
    Ok(types)
}

fn record_parts(alloc: Global, record: &RecordDesc) -> Result<List<TypeRef>, AllocError>
    ensures { IfOk result (λ r. r ≡ spec.listed «record».now.base ++ map (λ f. f.of) «record».now.fields) }
{
    let mut types = List::new(alloc);
    add_listed(&mut types, &record.base)?;
    add_fields(&mut types, record.fields.as_slice())?;
    Ok(types)
}

fn record_types(alloc: Global, record: &RecordDesc) -> Result<List<TypeRef>, AllocError>
    ensures { IfOk result (λ r. r ≡ (spec.listed «record».now.base ++ map (λ f. f.of) «record».now.fields) ++ flat_map (λ m. spec.signature_types m.signature) «record».now.methods) }
{
    let mut types = record_parts(alloc, record)?;
    add_methods(&mut types, record.methods.as_slice())?;
    Ok(types)
}

fn one_type(alloc: Global, t: &TypeRef) -> Result<List<TypeRef>, AllocError>
    ensures { IfOk result (λ r. r ≡ t.now ∷ []) }
{
    let mut types = List::new(alloc);
    let t = copy_type(t)?;
    types.push(t)?;
    Ok(types)
}

/// The types that a type of this description stands on.
pub fn stands_on(alloc: Global, desc: &Desc) -> Result<List<TypeRef>, AllocError>
    ensures { IfOk result (λ r. r ≡ spec.stands_on desc.now) }
{
    match desc {
        Desc::Alias(_, t) | Desc::Array(_, _, t) | Desc::OpenArray(_, t) => one_type(alloc, t),
        Desc::ProcType(_, signature) => signature_types(alloc, signature),
        Desc::Record(record) => record_parts(alloc, record),
        Desc::Const(_) | Desc::Var(_, _) | Desc::Proc(_) | Desc::Pointer(_, _) => {
            Ok(List::new(alloc))
        }
    }
}

/// The types that a description names.
pub fn named_by(alloc: Global, desc: &Desc) -> Result<List<TypeRef>, AllocError>
    ensures { IfOk result (λ r. r ≡ spec.named_by desc.now) }
{
    match desc {
        Desc::Var(_, t)
        | Desc::Pointer(_, t)
        | Desc::Alias(_, t)
        | Desc::Array(_, _, t)
        | Desc::OpenArray(_, t) => one_type(alloc, t),
        Desc::Proc(signature) | Desc::ProcType(_, signature) => signature_types(alloc, signature),
        Desc::Record(record) => record_types(alloc, record),
        Desc::Const(_) => Ok(List::new(alloc)),
    }
}
