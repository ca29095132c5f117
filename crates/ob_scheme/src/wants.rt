//! How the parts of designators and assignments are wanted.

ghost use Rattle.std.specs.Prelude.{◌≡◌};
ghost use Rattle.ob_types.specs.TypedView.{designator_view};
ghost use Rattle.ob_scheme.specs.Expressions.{index_want, guard_want, under_guard};
ghost use Rattle.ob_scheme.specs.Statements.{is_passed_with_tag, is_tagged_variable, is_tagged_guard, has_tag, record_want, target_want, source_want};

use crate::want::Want;
use ob_types::{Assigned, Designator, Guarded, Passing, Variable};

/// How an array is wanted, of which an element is.
pub fn want_for_index(length: Option<u32>) -> Want
    ensures { result ≡ index_want length }
{
    match length {
        None => Want::PlaceAndLength,
        Some(_) => Want::Place,
    }
}

fn want_under_guard(want: Want) -> Want
    ensures { result ≡ under_guard want }
{
    match want {
        Want::Tag => Want::Tag,
        Want::Value
        | Want::Place
        | Want::Room(_)
        | Want::PlaceAndTag
        | Want::PlaceAndLength
        | Want::Length => Want::PlaceAndTag,
    }
}

/// How a variable is wanted, on which a guard stands.
pub fn want_for_guard(guarded: Guarded, want: Want) -> Want
    ensures { result ≡ guard_want guarded want }
{
    match guarded {
        Guarded::Pointer => Want::Place,
        Guarded::Record => want_under_guard(want),
    }
}

fn is_passed_with_tag(how: Passing) -> bool
    ensures { result ≡ is_passed_with_tag how }
{
    match how {
        Passing::VariableRecord => true,
        Passing::Scalar
        | Passing::Structure
        | Passing::OpenArray
        | Passing::Variable
        | Passing::VariableOpenArray => false,
    }
}

fn is_tagged_variable(variable: &Variable) -> bool
    ensures { result ≡ is_tagged_variable variable.now }
{
    match variable {
        Variable::Parameter(how, _) => is_passed_with_tag(*how),
        Variable::Module { .. } | Variable::Local(_) => false,
    }
}

fn is_tagged_guard(guarded: Guarded) -> bool
    ensures { result ≡ is_tagged_guard guarded }
{
    match guarded {
        Guarded::Record => true,
        Guarded::Pointer => false,
    }
}

/// Whether the tag of a variable of a record type is that of its dynamic type.
#[tactic(auto, using(ob_types::proofs::TypedViews::view_variable, ob_types::proofs::TypedViews::view_field, ob_types::proofs::TypedViews::view_index, ob_types::proofs::TypedViews::view_deref, ob_types::proofs::TypedViews::view_guard))]
pub fn has_tag(d: &Designator) -> bool
    ensures { result ≡ has_tag (designator_view d.now) }
{
    match d {
        Designator::Variable { variable, .. } => is_tagged_variable(variable),
        Designator::Field { .. } | Designator::Index { .. } => false,
        Designator::Deref { .. } => true,
        Designator::Guard { guarded, .. } => is_tagged_guard(*guarded),
    }
}

fn record_want(tagged: bool) -> Want
    ensures { result ≡ record_want tagged }
{
    if tagged {
        Want::PlaceAndTag
    } else {
        Want::Place
    }
}

/// How the target of an assignment is wanted.
pub fn want_for_target(assigned: &Assigned, target: &Designator) -> Want
    ensures { result ≡ target_want assigned.now (designator_view target.now) }
{
    match assigned {
        Assigned::Record(_) => record_want(has_tag(target)),
        Assigned::Scalar | Assigned::Text | Assigned::Array => Want::Place,
    }
}

/// How what is assigned is wanted.
pub fn want_for_source(assigned: &Assigned) -> Want
    ensures { result ≡ source_want assigned.now }
{
    match assigned {
        Assigned::Scalar => Want::Value,
        Assigned::Text | Assigned::Array | Assigned::Record(_) => Want::Place,
    }
}
