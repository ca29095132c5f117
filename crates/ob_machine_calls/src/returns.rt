//! Returns from calls.

ghost use Rattle.std.specs.Prelude.{◌≡◌, ◌≤◌, ◌<◌, [], ◌∷◌, vec_len, vec_capacity, slice_get, option_map, if◌then◌else◌, reverse, ℤ};
ghost use Rattle.ob_instr.specs.Image.{Image as Modules};
ghost use Rattle.ob_instr.specs.Rows.{Effect, Leave, Unable, on_found, on_one};
ghost use Rattle.ob_machine_operands.specs.Effects.{ops_of};
ghost use Rattle.ob_machine_calls.specs.Reached.{Comes};

use crate::calling::Called;
use crate::calls::{Calls, Place};
use crate::methods::operand;
use ob_machine_image::Module;
use ob_machine_operands::{State, put};

// A call ends without a result, and its words are free again.
#[inline(always)]
fn leave(here: &mut Place, waiting: &mut Calls, state: &mut State) -> Called
    requires room { 257 ≤ vec_capacity state.old.operands }
    requires first { 0 < here.old.first }
    requires stack { 0 < state.old.stack }
    ensures comes { (img : Modules) → Comes img (λ w. Leave [] w) here.old here.new waiting.old waiting.new state.old state.new result }
    ensures few { vec_len state.new.operands ≤ 256 }
    ensures capacity { vec_capacity state.old.operands ≤ vec_capacity state.new.operands }
    ensures first { 0 < here.new.first }
    ensures stack { 0 < state.new.stack }
{
    state.operands.clear();
    let Some(place) = waiting.pop(&mut state.operands) else {
        return Called::Done;
    };
    state.stack = here.first;
    here.unit = place.unit;
    here.procedure = place.procedure;
    here.first = place.first;
    here.next = place.next;
    Called::Goes
}

// A call ends with a result, its last operand, and its words are free again. The result then stands on
// the operands of the call that waited.
#[inline(always)]
fn leave_with(here: &mut Place, waiting: &mut Calls, state: &mut State, given: i32) -> Called
    requires room { 257 ≤ vec_capacity state.old.operands }
    requires first { 0 < here.old.first }
    requires stack { 0 < state.old.stack }
    ensures comes { (img : Modules) → Comes img (λ w. Leave (given ∷ []) w) here.old here.new waiting.old waiting.new state.old state.new result }
    ensures few { vec_len state.new.operands ≤ 257 }
    ensures capacity { vec_capacity state.old.operands ≤ vec_capacity state.new.operands }
    ensures first { 0 < here.new.first }
    ensures stack { 0 < state.new.stack }
{
    match leave(here, waiting, state) {
        Called::Goes => {
            put(&mut state.operands, given);
            Called::Goes
        }
        called => called,
    }
}

// Whether a procedure of a module gives a result.
#[inline(always)]
fn has_result(unit: &Module, procedure: u32) -> Option<bool>
    ensures { result ≡ option_map (λ q. q.has_result) (slice_get unit.now.procedures procedure) }
{
    let q = unit.procedures.get(procedure as usize)?;
    Some(q.has_result())
}

#[inline(always)]
fn last(operands: &[i32]) -> Option<i32>
    ensures { (k : ℤ → Effect) → on_one (reverse operands.now) (λ v rest. k v) ≡ on_found result k }
{
    let len = operands.len();
    if len == 0 {
        return None;
    }
    Some(operand(operands, len - 1))
}

/// A return without a result.
#[inline(always)]
pub fn return_without(
    unit: &Module,
    here: &mut Place,
    waiting: &mut Calls,
    state: &mut State,
) -> Called
    requires room { 257 ≤ vec_capacity state.old.operands }
    requires few { vec_len state.old.operands ≤ 256 }
    requires first { 0 < here.old.first }
    requires stack { 0 < state.old.stack }
    ensures comes { (img : Modules) → Comes img (λ w. on_found (slice_get unit.now.procedures here.old.procedure) (λ q. if q.has_result then Unable else Leave [] w)) here.old here.new waiting.old waiting.new state.old state.new result }
    ensures few { vec_len state.new.operands ≤ 256 }
    ensures capacity { vec_capacity state.old.operands ≤ vec_capacity state.new.operands }
    ensures first { 0 < here.new.first }
    ensures stack { 0 < state.new.stack }
{
    let Some(has) = has_result(unit, here.procedure) else {
        return Called::Unable;
    };
    if has {
        return Called::Unable;
    }
    leave(here, waiting, state)
}

/// A return with a result.
#[inline(always)]
pub fn return_with(
    unit: &Module,
    here: &mut Place,
    waiting: &mut Calls,
    state: &mut State,
) -> Called
    requires room { 257 ≤ vec_capacity state.old.operands }
    requires few { vec_len state.old.operands ≤ 256 }
    requires first { 0 < here.old.first }
    requires stack { 0 < state.old.stack }
    ensures comes { (img : Modules) → Comes img (λ w. on_found (slice_get unit.now.procedures here.old.procedure) (λ q. on_one (ops_of state.old) (λ v rest. if q.has_result then Leave (v ∷ []) w else Unable))) here.old here.new waiting.old waiting.new state.old state.new result }
    ensures few { vec_len state.new.operands ≤ 257 }
    ensures capacity { vec_capacity state.old.operands ≤ vec_capacity state.new.operands }
    ensures first { 0 < here.new.first }
    ensures stack { 0 < state.new.stack }
{
    let Some(has) = has_result(unit, here.procedure) else {
        return Called::Unable;
    };
    let Some(given) = last(&state.operands) else {
        return Called::Unable;
    };
    if !has {
        return Called::Unable;
    }
    leave_with(here, waiting, state, given)
}
