//! The bound procedures of types, where those of the module's own records are counted.

ghost use Rattle.std.specs.Prelude.{◌≡◌, ◌+◌, true, false, suc, Some, length, IfOk};
ghost use Rattle.ob_types.specs.TypedView.{module_view};
ghost use Rattle.ob_types.specs.declared.types.TypeRef.TheVariants as ref;
ghost use Rattle.ob_layout.specs.LaidOut.{counted, declared_procedures, base_of};
ghost use Rattle.ob_env.specs.Faces.{faces_of, described};
ghost use Rattle.ob_layout_module.specs.Sums.{own_ref};

use crate::sums::is_own;
use ob_env::View;
use ob_tree::QName;
use ob_types::{Desc, RecordDesc, TypeRef, Types};
use std::alloc::AllocError;

// Both together. An error says that no number of 32 bits is as great.
fn together(a: u32, b: usize) -> Result<u32, AllocError>
    ensures { IfOk result (λ n. n ≡ a + b) }
{
    if b > 4_294_967_295 {
        return Err(AllocError);
    }
    match a.checked_add(b as u32) {
        Some(sum) => Ok(sum),
        None => Err(AllocError),
    }
}

/// The bound procedures of the base of a record in so many steps, if it has one.
#[cycle(counts)]
pub fn count_of_base(
    view: &View<'_>,
    steps: usize,
    base: &Option<TypeRef>,
) -> Result<u32, AllocError>
    ensures { IfOk result (λ n. n ≡ base_of (counted (described (faces_of view.now.env.now)) (module_view view.now.«module».now) steps) base.now) }
{
    match base {
        None => Ok(0),
        Some(t) => count_at(view, steps, t),
    }
}

// The bound procedures of a record of the module.
#[cycle(counts)]
fn count_of_record(view: &View<'_>, steps: usize, own: &RecordDesc) -> Result<u32, AllocError>
    ensures { IfOk result (λ n. n ≡ base_of (counted (described (faces_of view.now.env.now)) (module_view view.now.«module».now) steps) own.now.base + length own.now.methods) }
{
    let below = count_of_base(view, steps, &own.base)?;
    together(below, own.methods.len())
}

// The bound procedures of a type of the module that is so described.
#[cycle(counts)]
fn count_of_desc(view: &View<'_>, steps: usize, desc: &Desc) -> Result<u32, AllocError>
    ensures { IfOk result (λ n. n ≡ declared_procedures (counted (described (faces_of view.now.env.now)) (module_view view.now.«module».now) steps) true (Some desc.now)) }
{
    match desc {
        Desc::Alias(_, of) => count_at(view, steps, of),
        Desc::Record(own) => count_of_record(view, steps, own),
        Desc::Const(_) => Ok(0),
        Desc::Var(_, _) => Ok(0),
        Desc::Proc(_) => Ok(0),
        Desc::Array(_, _, _) => Ok(0),
        Desc::OpenArray(_, _) => Ok(0),
        Desc::Pointer(_, _) => Ok(0),
        Desc::ProcType(_, _) => Ok(0),
    }
}

/// The bound procedures of the type of the module that has this name, in one step more.
#[cycle(counts)]
#[tactic(auto, using(crate::proofs::Rows::count_none, crate::proofs::Rows::count_is))]
pub fn own_count(view: &View<'_>, steps: usize, name: &[u8]) -> Result<u32, AllocError>
    ensures { IfOk result (λ n. n ≡ counted (described (faces_of view.now.env.now)) (module_view view.now.«module».now) (suc steps) (own_ref (module_view view.now.«module».now).name name.now)) }
{
    match view.own_desc(name) {
        None => Ok(0),
        Some(desc) => count_of_desc(view, steps, desc),
    }
}

// The bound procedures of a type of another module that is so described.
#[cycle(counts)]
fn count_of_other(view: &View<'_>, steps: usize, desc: &Desc) -> Result<u32, AllocError>
    ensures { IfOk result (λ n. n ≡ declared_procedures (counted (described (faces_of view.now.env.now)) (module_view view.now.«module».now) steps) false (Some desc.now)) }
{
    match desc {
        Desc::Alias(_, of) => count_at(view, steps, of),
        Desc::Record(other) => Ok(other.procedures),
        Desc::Const(_) => Ok(0),
        Desc::Var(_, _) => Ok(0),
        Desc::Proc(_) => Ok(0),
        Desc::Array(_, _, _) => Ok(0),
        Desc::OpenArray(_, _) => Ok(0),
        Desc::Pointer(_, _) => Ok(0),
        Desc::ProcType(_, _) => Ok(0),
    }
}

// The bound procedures of the type of that name, in one step more.
#[cycle(counts)]
#[tactic(auto, using(crate::proofs::Rows::count_own, crate::proofs::Counting::other_some, crate::proofs::Counting::other_none))]
fn count_of_name(view: &View<'_>, steps: usize, name: &QName) -> Result<u32, AllocError>
    ensures { IfOk result (λ n. n ≡ counted (described (faces_of view.now.env.now)) (module_view view.now.«module».now) (suc steps) (ref.Named name.now)) }
{
    if is_own(view, name) {
        let own = own_count(view, steps, name.object.as_bytes())?;
        return Ok(own);
    }
    match view.desc_of(name) {
        None => Ok(0),
        Some(desc) => {
            let other = count_of_other(view, steps, desc)?;
            Ok(other)
        }
    }
}

/// The bound procedures of a type in so many steps.
#[cycle(counts)]
#[tactic(auto, using(crate::proofs::Counting::count_next))]
pub fn count_at(view: &View<'_>, steps: usize, t: &TypeRef) -> Result<u32, AllocError>
    ensures { IfOk result (λ n. n ≡ counted (described (faces_of view.now.env.now)) (module_view view.now.«module».now) steps t.now) }
{
    if steps == 0 {
        return Ok(0);
    }
    let TypeRef::Named(name) = t else {
        return Ok(0);
    };
    let count = count_of_name(view, steps - 1, name)?;
    Ok(count)
}
