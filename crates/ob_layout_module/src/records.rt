//! Records and types of a module, laid out.

ghost use Rattle.std.specs.Prelude.{◌≡◌, ◌+◌, length, map, IfOk};
ghost use Rattle.ob_types.specs.TypedView.{module_view};
ghost use Rattle.ob_layout.specs.LaidOut.{words_in, procedures_in, base_of, kept, placed, numbered as numbered_from, laid_record as record_laid, laid_desc as desc_laid, laid_type as type_laid};
ghost use Rattle.ob_env.specs.Faces.{faces_of, described};
ghost use Rattle.ob_layout_module.specs.Placed.{placed_behind};
ghost use Rattle.ob_layout_module.specs.Sums.{own_name, Hold};

use crate::counts::{count_of_base, own_count};
use crate::sums::{CHAIN, Sum, own_words, plus, words_at, words_of_base};
use ob_env::View;
use ob_tree::List;
use ob_types::{Desc, Field, Method, RecordDesc, TypeRef, TypedType};
use ob_types_trees::{copy_desc, copy_method, copy_type};
use std::alloc::{AllocError, Global};

fn placed_at(field: &Field, place: u32) -> Result<Field, AllocError>
    ensures { IfOk result (λ f. f ≡ record field.now { place = place }) }
{
    let of = copy_type(&field.of)?;
    Ok(Field {
        name: field.name,
        mark: field.mark,
        place,
        of,
    })
}

// The place behind a field, those above the limit as the next number.
#[tactic(auto, using(crate::proofs::Keeping::kept_right))]
fn next_place(view: &View<'_>, rows: &[List<Sum>], at: u32, field: &Field) -> u32
    requires { Hold (described (faces_of view.now.env.now)) (module_view view.now.«module».now) rows.now 201 }
    ensures { result ≡ kept (at + words_in (described (faces_of view.now.env.now)) (module_view view.now.«module».now) field.now.of) }
{
    plus(at, words_at(view, rows, CHAIN, &field.of).words)
}

// Fields one behind the other.
fn placed_fields(
    alloc: Global,
    view: &View<'_>,
    rows: &[List<Sum>],
    from: u32,
    fields: &[Field],
) -> Result<List<Field>, AllocError>
    requires { Hold (described (faces_of view.now.env.now)) (module_view view.now.«module».now) rows.now 201 }
    ensures { IfOk result (λ l. l ≡ placed_behind (words_in (described (faces_of view.now.env.now)) (module_view view.now.«module».now)) from fields.now) }
{
    let mut all = List::new(alloc);
    let mut at = from;
    'fields: for field in fields {
        let one = placed_at(field, at)?;
        all.push(one)?;
        at = next_place(view, rows, at, field);
    }
    Ok(all)
}

fn with_number(alloc: Global, method: &Method, number: u32) -> Result<Method, AllocError>
    ensures { IfOk result (λ m. m ≡ record method.now { number = number }) }
{
    let mut copy = copy_method(alloc, method)?;
    copy.number = number;
    Ok(copy)
}

// Bound procedures with the numbers from this one on.
#[tactic(auto, using(crate::proofs::Keeping::numbered_more))]
fn numbered(alloc: Global, from: u32, methods: &[Method]) -> Result<List<Method>, AllocError>
    ensures { IfOk result (λ l. l ≡ numbered_from from methods.now) }
{
    let mut all = List::new(alloc);
    let mut number = from;
    'methods: for method in methods {
        let one = with_number(alloc, method, number)?;
        all.push(one)?;
        number = match number.checked_add(1) {
            Some(next) => next,
            None => return Err(AllocError),
        };
    }
    Ok(all)
}

fn copy_base(base: &Option<TypeRef>) -> Result<Option<TypeRef>, AllocError>
    ensures { IfOk result (λ b. b ≡ base.now) }
{
    match base {
        None => Ok(None),
        Some(t) => {
            let t = copy_type(t)?;
            Ok(Some(t))
        }
    }
}

// The fields of a record, with their places.
#[tactic(auto, using(crate::proofs::Keeping::behind))]
fn laid_fields(
    alloc: Global,
    view: &View<'_>,
    rows: &[List<Sum>],
    own: &RecordDesc,
) -> Result<List<Field>, AllocError>
    requires { Hold (described (faces_of view.now.env.now)) (module_view view.now.«module».now) rows.now 201 }
    ensures { IfOk result (λ l. l ≡ placed (words_in (described (faces_of view.now.env.now)) (module_view view.now.«module».now)) (base_of (words_in (described (faces_of view.now.env.now)) (module_view view.now.«module».now)) own.now.base) own.now.fields) }
{
    let from = words_of_base(view, rows, CHAIN, &own.base).words;
    placed_fields(alloc, view, rows, from, own.fields.as_slice())
}

// The bound procedures that a record introduces, with their numbers.
fn laid_methods(
    alloc: Global,
    view: &View<'_>,
    own: &RecordDesc,
) -> Result<List<Method>, AllocError>
    ensures { IfOk result (λ l. l ≡ numbered_from (base_of (procedures_in (described (faces_of view.now.env.now)) (module_view view.now.«module».now)) own.now.base) own.now.methods) }
{
    let from = count_of_base(view, CHAIN, &own.base)?;
    numbered(alloc, from, own.methods.as_slice())
}

fn laid_record(
    alloc: Global,
    view: &View<'_>,
    rows: &[List<Sum>],
    name: &[u8],
    own: &RecordDesc,
) -> Result<RecordDesc, AllocError>
    requires { Hold (described (faces_of view.now.env.now)) (module_view view.now.«module».now) rows.now 201 }
    ensures { IfOk result (λ r. r ≡ record_laid (words_in (described (faces_of view.now.env.now)) (module_view view.now.«module».now)) (procedures_in (described (faces_of view.now.env.now)) (module_view view.now.«module».now)) (own_name (module_view view.now.«module».now).name name.now) own.now) }
{
    let base = copy_base(&own.base)?;
    let fields = laid_fields(alloc, view, rows, own)?;
    let methods = laid_methods(alloc, view, own)?;
    let procedures = own_count(view, CHAIN - 1, name)?;
    Ok(RecordDesc {
        mark: own.mark,
        base,
        fields,
        methods,
        words: own_words(view, rows, CHAIN, name).words,
        procedures,
    })
}

fn laid_desc(
    alloc: Global,
    view: &View<'_>,
    rows: &[List<Sum>],
    name: &[u8],
    desc: &Desc,
) -> Result<Desc, AllocError>
    requires { Hold (described (faces_of view.now.env.now)) (module_view view.now.«module».now) rows.now 201 }
    ensures { IfOk result (λ d. d ≡ desc_laid (words_in (described (faces_of view.now.env.now)) (module_view view.now.«module».now)) (procedures_in (described (faces_of view.now.env.now)) (module_view view.now.«module».now)) (own_name (module_view view.now.«module».now).name name.now) desc.now) }
{
    match desc {
        Desc::Record(own) => {
            let laid = laid_record(alloc, view, rows, name, own)?;
            Ok(Desc::Record(laid))
        }
        Desc::Const(_)
        | Desc::Var(..)
        | Desc::Proc(_)
        | Desc::Alias(..)
        | Desc::Array(..)
        | Desc::OpenArray(..)
        | Desc::Pointer(..)
        | Desc::ProcType(..) => copy_desc(alloc, desc),
    }
}

fn laid_type(
    alloc: Global,
    view: &View<'_>,
    rows: &[List<Sum>],
    of: &TypedType,
) -> Result<TypedType, AllocError>
    requires { Hold (described (faces_of view.now.env.now)) (module_view view.now.«module».now) rows.now 201 }
    ensures { IfOk result (λ t. t ≡ type_laid (described (faces_of view.now.env.now)) (module_view view.now.«module».now) of.now) }
{
    let name = of.name.clone()?;
    let desc = laid_desc(alloc, view, rows, of.name.as_bytes(), &of.desc)?;
    Ok(TypedType { name, desc })
}

/// Types of the module, laid out.
pub fn laid_types(
    alloc: Global,
    view: &View<'_>,
    rows: &[List<Sum>],
    types: &[TypedType],
) -> Result<List<TypedType>, AllocError>
    requires { Hold (described (faces_of view.now.env.now)) (module_view view.now.«module».now) rows.now 201 }
    ensures { IfOk result (λ l. l ≡ map (type_laid (described (faces_of view.now.env.now)) (module_view view.now.«module».now)) types.now) }
{
    let mut all = List::new(alloc);
    'types: for of in types {
        let one = laid_type(alloc, view, rows, of)?;
        all.push(one)?;
    }
    Ok(all)
}
