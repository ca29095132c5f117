//! Copies that are what they were made of.

ghost use Rattle.std.specs.Prelude.{◌≡◌, IfOk};

use ob_tree::{List, QName};
use ob_types::{Desc, Field, Method, Mode, RecordDesc, Signature, TypeRef, Value, Variable};
use std::alloc::{AllocError, Global};

pub fn copy_name(name: &QName) -> Result<QName, AllocError>
    ensures { IfOk result (λ r. r ≡ name.now) }
{
    let module = name.module.clone()?;
    let object = name.object.clone()?;
    Ok(QName { module, object })
}

pub fn copy_variable(variable: &Variable) -> Result<Variable, AllocError>
    ensures { IfOk result (λ r. r ≡ variable.now) }
{
    match variable {
        Variable::Module { module, name } => {
            let module = module.clone()?;
            let name = name.clone()?;
            Ok(Variable::Module { module, name })
        }
        Variable::Local(name) => {
            let name = name.clone()?;
            Ok(Variable::Local(name))
        }
        Variable::Parameter(passing, name) => {
            let name = name.clone()?;
            Ok(Variable::Parameter(*passing, name))
        }
    }
}

pub fn copy_type(t: &TypeRef) -> Result<TypeRef, AllocError>
    ensures { IfOk result (λ r. r ≡ t.now) }
{
    match t {
        TypeRef::Basic(basic) => Ok(TypeRef::Basic(*basic)),
        TypeRef::Named(name) => {
            let name = copy_name(name)?;
            Ok(TypeRef::Named(name))
        }
    }
}

fn copy_result(t: &Option<TypeRef>) -> Result<Option<TypeRef>, AllocError>
    ensures { IfOk result (λ r. r ≡ t.now) }
{
    match t {
        None => Ok(None),
        Some(t) => {
            let t = copy_type(t)?;
            Ok(Some(t))
        }
    }
}

fn copy_params(
    alloc: Global,
    params: &[(Mode, TypeRef)],
) -> Result<List<(Mode, TypeRef)>, AllocError>
    ensures { IfOk result (λ r. r ≡ params.now) }
{
    let mut all = List::new(alloc);
    'params: for param in params {
        let t = copy_type(&param.1)?;
        all.push((param.0, t))?;
    }
    Ok(all)
}

pub fn copy_signature(alloc: Global, signature: &Signature) -> Result<Signature, AllocError>
    ensures { IfOk result (λ r. r ≡ signature.now) }
{
    let params = copy_params(alloc, signature.params.as_slice())?;
    let of = copy_result(&signature.result)?;
    Ok(Signature { params, result: of })
}

pub fn copy_value(alloc: Global, value: &Value) -> Result<Value, AllocError>
    ensures { IfOk result (λ r. r ≡ value.now) }
{
    match value {
        Value::Bool(b) => Ok(Value::Bool(*b)),
        Value::Char(c) => Ok(Value::Char(*c)),
        Value::Int(n) => Ok(Value::Int(*n)),
        Value::Set(set) => Ok(Value::Set(*set)),
        Value::Str(text) => {
            let text = List::from_slice(alloc, text.as_slice())?;
            Ok(Value::Str(text))
        }
        Value::Nil => Ok(Value::Nil),
    }
}

pub fn copy_field(field: &Field) -> Result<Field, AllocError>
    ensures { IfOk result (λ r. r ≡ field.now) }
{
    let of = copy_type(&field.of)?;
    Ok(Field {
        name: field.name,
        mark: field.mark,
        place: field.place,
        of,
    })
}

pub fn copy_method(alloc: Global, method: &Method) -> Result<Method, AllocError>
    ensures { IfOk result (λ r. r ≡ method.now) }
{
    let signature = copy_signature(alloc, &method.signature)?;
    Ok(Method {
        name: method.name,
        mark: method.mark,
        number: method.number,
        receiver: method.receiver,
        signature,
    })
}

fn copy_fields(alloc: Global, fields: &[Field]) -> Result<List<Field>, AllocError>
    ensures { IfOk result (λ r. r ≡ fields.now) }
{
    let mut all = List::new(alloc);
    'fields: for field in fields {
        let one = copy_field(field)?;
        all.push(one)?;
    }
    Ok(all)
}

fn copy_methods(alloc: Global, methods: &[Method]) -> Result<List<Method>, AllocError>
    ensures { IfOk result (λ r. r ≡ methods.now) }
{
    let mut all = List::new(alloc);
    'methods: for method in methods {
        let one = copy_method(alloc, method)?;
        all.push(one)?;
    }
    Ok(all)
}

pub fn copy_record(alloc: Global, desc: &RecordDesc) -> Result<RecordDesc, AllocError>
    ensures { IfOk result (λ r. r ≡ desc.now) }
{
    let base = copy_result(&desc.base)?;
    let fields = copy_fields(alloc, desc.fields.as_slice())?;
    let methods = copy_methods(alloc, desc.methods.as_slice())?;
    Ok(RecordDesc {
        mark: desc.mark,
        base,
        fields,
        methods,
        words: desc.words,
        procedures: desc.procedures,
    })
}

pub fn copy_desc(alloc: Global, desc: &Desc) -> Result<Desc, AllocError>
    ensures { IfOk result (λ r. r ≡ desc.now) }
{
    match desc {
        Desc::Const(value) => {
            let value = copy_value(alloc, value)?;
            Ok(Desc::Const(value))
        }
        Desc::Var(mark, t) => {
            let t = copy_type(t)?;
            Ok(Desc::Var(*mark, t))
        }
        Desc::Proc(signature) => {
            let signature = copy_signature(alloc, signature)?;
            Ok(Desc::Proc(signature))
        }
        Desc::Alias(mark, t) => {
            let t = copy_type(t)?;
            Ok(Desc::Alias(*mark, t))
        }
        Desc::Array(mark, length, t) => {
            let t = copy_type(t)?;
            Ok(Desc::Array(*mark, *length, t))
        }
        Desc::OpenArray(mark, t) => {
            let t = copy_type(t)?;
            Ok(Desc::OpenArray(*mark, t))
        }
        Desc::Pointer(mark, t) => {
            let t = copy_type(t)?;
            Ok(Desc::Pointer(*mark, t))
        }
        Desc::ProcType(mark, signature) => {
            let signature = copy_signature(alloc, signature)?;
            Ok(Desc::ProcType(*mark, signature))
        }
        Desc::Record(record) => {
            let record = copy_record(alloc, record)?;
            Ok(Desc::Record(record))
        }
    }
}
