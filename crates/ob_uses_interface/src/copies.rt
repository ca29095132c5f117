//! Copies of types and descriptions.

ghost use Rattle.std.specs.Prelude.{◌≡◌, ◌++◌, ◌∷◌, [], OnOk, IfOk, map as each};
ghost use Rattle.std.specs.List.{filter};
ghost use Rattle.ob_desc.specs.Grammar.{is_shown, by_place, seen};
ghost use Rattle.ob_layout.specs.Lists.{in_order};
ghost use Rattle.ob_uses_roots.specs.Counts.{mode_of};
ghost use Rattle.ob_uses.specs.Objects.{formal_of, in_places};
ghost use Rattle.ob_uses_interface.specs.Placed.{to_field, as_placed};

use crate::placed::Placed;
use ob_layout::ordered_set;
use ob_tree::{List, Text};
use ob_types::{
    Desc, Field, Method, Mode, Passing, RecordDesc, Signature, TypeRef, TypedParameter, Value,
};
use ob_uses::shows;
use std::alloc::{AllocError, Global};
use std::collections::BTreeSet;

/// A copy of the type.
pub fn copy_type(t: &TypeRef) -> Result<TypeRef, AllocError>
    ensures { IfOk result (λ u. u ≡ t.now) }
{
    match t {
        TypeRef::Basic(basic) => Ok(TypeRef::Basic(*basic)),
        TypeRef::Named(name) => {
            let copy = name.clone()?;
            Ok(TypeRef::Named(copy))
        }
    }
}

/// A copy of the type, where there is one.
pub fn copy_optional(t: &Option<TypeRef>) -> Result<Option<TypeRef>, AllocError>
    ensures { IfOk result (λ u. u ≡ t.now) }
{
    match t {
        None => Ok(None),
        Some(of) => {
            let copy = copy_type(of)?;
            Ok(Some(copy))
        }
    }
}

fn copy_params(
    alloc: Global,
    params: &[(Mode, TypeRef)],
) -> Result<List<(Mode, TypeRef)>, AllocError>
    ensures { IfOk result (λ l. l ≡ params.now) }
{
    let mut all = List::new(alloc);
    'params: for param in params {
        let of = copy_type(&param.1)?;
        all.push((param.0, of))?;
    }
    Ok(all)
}

fn copy_signature(alloc: Global, signature: &Signature) -> Result<Signature, AllocError>
    ensures { IfOk result (λ s. s ≡ signature.now) }
{
    let params = copy_params(alloc, signature.params.as_slice())?;
    let result = copy_optional(&signature.result)?;
    Ok(Signature { params, result })
}

/// A copy of the value of a constant.
pub fn copy_value(alloc: Global, value: &Value) -> Result<Value, AllocError>
    ensures { IfOk result (λ v. v ≡ value.now) }
{
    match value {
        Value::Bool(b) => Ok(Value::Bool(*b)),
        Value::Char(c) => Ok(Value::Char(*c)),
        Value::Int(i) => Ok(Value::Int(*i)),
        Value::Set(s) => Ok(Value::Set(*s)),
        Value::Str(text) => {
            let copy = Text::from_slice(alloc, text.as_slice())?;
            Ok(Value::Str(copy))
        }
        Value::Nil => Ok(Value::Nil),
    }
}

// ---- what other modules see of a description

fn placed(field: &Field) -> Result<Placed, AllocError>
    ensures { IfOk result (λ p. p ≡ as_placed field.now) }
{
    let of = copy_type(&field.of)?;
    Ok(Placed {
        field: Field {
            name: field.name,
            mark: field.mark,
            place: field.place,
            of,
        },
    })
}

fn all_placed(alloc: Global, fields: &[Field]) -> Result<Vec<Placed>, AllocError>
    ensures { IfOk result (λ v. v.items ≡ each as_placed fields.now) }
{
    let mut all = Vec::new(alloc);
    'fields: for field in fields {
        let one = placed(field)?;
        all.push(one)?;
    }
    Ok(all)
}

fn keep_shown(all: &mut List<Field>, field: Field) -> Result<(), AllocError>
    ensures { OnOk result (all.new ≡ all.old ++ filter (λ f. is_shown f.mark) (field ∷ [])) }
{
    if shows(field.mark) {
        all.push(field)?;
    }
    Ok(())
}

fn shown_of(alloc: Global, set: BTreeSet<Placed, Global>) -> Result<List<Field>, AllocError>
    ensures { IfOk result (λ l. l ≡ filter (λ f. is_shown f.mark) (each to_field set.keys)) }
{
    let mut left = set;
    let mut all = List::new(alloc);
    'items: while let Some(item) = left.pop_first() {
        let Placed { field } = item;
        keep_shown(&mut all, field)?;
    }
    Ok(all)
}

// The fields that are exported, in the order of their places.
fn seen_fields(alloc: Global, fields: &[Field]) -> Result<List<Field>, AllocError>
    ensures { IfOk result (λ l. l ≡ filter (λ f. is_shown f.mark) (in_order by_place fields.now)) }
{
    let found = all_placed(alloc, fields)?;
    let set = ordered_set(alloc, found)?;
    let fields = shown_of(alloc, set)?;
    Ok(fields)
}

fn add_method(alloc: Global, all: &mut List<Method>, method: &Method) -> Result<(), AllocError>
    ensures { OnOk result (all.new ≡ all.old ++ filter (λ f. is_shown f.mark) (method.now ∷ [])) }
{
    if !shows(method.mark) {
        return Ok(());
    }
    let signature = copy_signature(alloc, &method.signature)?;
    all.push(Method {
        name: method.name,
        mark: method.mark,
        number: method.number,
        receiver: method.receiver,
        signature,
    })?;
    Ok(())
}

fn seen_methods(alloc: Global, methods: &[Method]) -> Result<List<Method>, AllocError>
    ensures { IfOk result (λ l. l ≡ filter (λ f. is_shown f.mark) methods.now) }
{
    let mut all = List::new(alloc);
    'methods: for method in methods {
        add_method(alloc, &mut all, method)?;
    }
    Ok(all)
}

/// A copy of a description without the fields and the bound procedures that are not exported, the
/// fields in the order of their places.
pub fn seen_desc(alloc: Global, desc: &Desc) -> Result<Desc, AllocError>
    ensures { IfOk result (λ d. d ≡ seen (in_places desc.now)) }
{
    match desc {
        Desc::Const(value) => {
            let value = copy_value(alloc, value)?;
            Ok(Desc::Const(value))
        }
        Desc::Var(mark, t) => {
            let of = copy_type(t)?;
            Ok(Desc::Var(*mark, of))
        }
        Desc::Proc(signature) => {
            let signature = copy_signature(alloc, signature)?;
            Ok(Desc::Proc(signature))
        }
        Desc::Alias(mark, t) => {
            let of = copy_type(t)?;
            Ok(Desc::Alias(*mark, of))
        }
        Desc::Array(mark, length, t) => {
            let of = copy_type(t)?;
            Ok(Desc::Array(*mark, *length, of))
        }
        Desc::OpenArray(mark, t) => {
            let of = copy_type(t)?;
            Ok(Desc::OpenArray(*mark, of))
        }
        Desc::Pointer(mark, t) => {
            let of = copy_type(t)?;
            Ok(Desc::Pointer(*mark, of))
        }
        Desc::ProcType(mark, signature) => {
            let signature = copy_signature(alloc, signature)?;
            Ok(Desc::ProcType(*mark, signature))
        }
        Desc::Record(found) => {
            let base = copy_optional(&found.base)?;
            let fields = seen_fields(alloc, found.fields.as_slice())?;
            let methods = seen_methods(alloc, found.methods.as_slice())?;
            Ok(Desc::Record(RecordDesc {
                mark: found.mark,
                base,
                fields,
                methods,
                words: found.words,
                procedures: found.procedures,
            }))
        }
    }
}

// ---- the signature of a declared procedure

fn mode_of(passing: Passing) -> Mode
    ensures { result ≡ mode_of passing }
{
    match passing {
        Passing::Scalar => Mode::Value,
        Passing::Structure => Mode::Value,
        Passing::OpenArray => Mode::Value,
        Passing::Variable => Mode::Var,
        Passing::VariableRecord => Mode::Var,
        Passing::VariableOpenArray => Mode::Var,
    }
}

fn formals_of(
    alloc: Global,
    parameters: &[TypedParameter],
) -> Result<List<(Mode, TypeRef)>, AllocError>
    ensures { IfOk result (λ l. l ≡ each formal_of parameters.now) }
{
    let mut all = List::new(alloc);
    'parameters: for parameter in parameters {
        let of = copy_type(&parameter.of)?;
        all.push((mode_of(parameter.passing), of))?;
    }
    Ok(all)
}

/// The signature of a procedure with these parameters and this result.
pub fn signature_with(
    alloc: Global,
    parameters: &[TypedParameter],
    result_type: &Option<TypeRef>,
) -> Result<Signature, AllocError>
    ensures { IfOk result (λ s. s ≡ record { params = each formal_of parameters.now; result = result_type.now }) }
{
    let params = formals_of(alloc, parameters)?;
    let result = copy_optional(result_type)?;
    Ok(Signature { params, result })
}
