//! What a call uses.

ghost use Rattle.std.specs.Prelude.{◌≡◌, ◌++◌, OnOk, Option};
ghost use Rattle.ob_types.specs.TypedView.{actuals_view};
ghost use Rattle.ob_uses_roots.specs.Counts.{formals, has_receiver, behind_first, without_receiver, counts_of_call, counts_of_held_call};
ghost use Rattle.ob_uses_roots.specs.Noted.{noted};

use crate::noted::Noted;
use crate::notes::{note_result, note_shape};
use ob_types::{Actual, Callee, TypeRef};
use std::alloc::AllocError;

fn takes_receiver(callee: &Callee) -> bool
    ensures { result ≡ has_receiver callee.now }
{
    match callee {
        Callee::Declared(_) => false,
        Callee::Bound { .. } => true,
        Callee::Super { .. } => true,
        Callee::Out(_) => false,
    }
}

// The actual parameters behind the first.
#[tactic(auto, using(ob_layout::proofs::UsedTexts::view_actuals))]
fn others(actuals: &[Actual]) -> &[Actual]
    ensures { actuals_view result.now ≡ behind_first (actuals_view actuals.now) }
{
    match actuals {
        [] => actuals,
        [_, rest @ ..] => rest,
    }
}

// The actual parameters without the receiver.
fn parameters<'a>(callee: &Callee, actuals: &'a [Actual]) -> &'a [Actual]
    ensures { actuals_view result.now ≡ without_receiver (has_receiver callee.now) (actuals_view actuals.now) }
{
    if takes_receiver(callee) {
        others(actuals)
    } else {
        actuals
    }
}

fn note_formals(found: &mut Noted, actuals: &[Actual]) -> Result<(), AllocError>
    ensures { OnOk result (found.new ≡ noted found.old (formals (actuals_view actuals.now))) }
{
    'formals: for actual in actuals {
        note_shape(found, &actual.formal)?;
    }
    Ok(())
}

/// What the call of a procedure variable counts beside its designator and its actual parameters.
#[tactic(auto, using(crate::proofs::Parting::note_two))]
pub fn note_held_call(
    found: &mut Noted,
    actuals: &[Actual],
    t: &Option<TypeRef>,
) -> Result<(), AllocError>
    ensures { OnOk result (found.new ≡ noted found.old (counts_of_held_call (actuals_view actuals.now) t.now)) }
{
    note_formals(found, actuals)?;
    note_result(found, t)
}

/// What the call of a declared procedure counts beside its actual parameters.
#[tactic(auto, using(crate::proofs::Parting::note_two))]
pub fn note_call(
    found: &mut Noted,
    callee: &Callee,
    actuals: &[Actual],
    t: &Option<TypeRef>,
) -> Result<(), AllocError>
    ensures { OnOk result (found.new ≡ noted found.old (counts_of_call callee.now (actuals_view actuals.now) t.now)) }
{
    note_held_call(found, parameters(callee, actuals), t)
}
