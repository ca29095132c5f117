//! Calls by the operands that stand.

ghost use Rattle.std.specs.Prelude.{◌≡◌, ◌+◌, ◌≤◌, ◌<◌, length, take, drop, reverse, vec_len, vec_capacity, slice_get, Some};
ghost use Rattle.ob_instr.specs.Parts.{slots, most_words};
ghost use Rattle.ob_instr.specs.Rows.{on_found, below, calls, calls_with, procedure_of};
ghost use Rattle.ob_machine_operands.specs.Effects.{ops_of};
ghost use Rattle.ob_machine_calls.specs.Callees.{callee_effect, IsWithin};
ghost use Rattle.ob_machine_calls.specs.Reached.{Comes};

use crate::callee::{Callee, own_number, procedure_at};
use crate::calling::{Called, call, procedure_of};
use crate::calls::{Calls, Place};
use ob_machine_image::{Callable, Image, Module};
use ob_machine_operands::State;
use ob_trap::Trap;
use ob_tree::ProcRef;

// A call of a procedure with as many operands as it has slots.
#[inline(always)]
fn call_with(
    image: &Image,
    here: &mut Place,
    waiting: &mut Calls,
    state: &mut State,
    r: ProcRef,
    q: &Callable,
) -> Called
    requires found { procedure_of image.now r ≡ Some q.now }
    requires words { slots q.now.params + q.now.locals ≤ most_words }
    requires few { vec_len state.old.operands ≤ 256 }
    requires first { 0 < here.old.first }
    requires next { here.old.next < 262144 }
    requires stack { 0 < state.old.stack }
    ensures comes { Comes image.now (calls_with image.now r (ops_of state.old)) here.old here.new waiting.old waiting.new state.old state.new result }
    ensures few { vec_len state.new.operands ≤ 256 }
    ensures capacity { vec_capacity state.new.operands ≡ vec_capacity state.old.operands }
    ensures first { 0 < here.new.first }
    ensures stack { 0 < state.new.stack }
{
    let slots = q.slots() as usize;
    let len = state.operands.len();
    if slots > len {
        return Called::Unable;
    }
    let from = len - slots;
    call(image, here, waiting, state, r, q, from, from)
}

// A call of a procedure with the operands from one on, while those below another one wait.
#[inline(always)]
fn call_from(
    image: &Image,
    here: &mut Place,
    waiting: &mut Calls,
    state: &mut State,
    r: ProcRef,
    from: usize,
    below: usize,
) -> Called
    requires from { from ≤ vec_len state.old.operands }
    requires below { below ≤ from }
    requires few { vec_len state.old.operands ≤ 256 }
    requires first { 0 < here.old.first }
    requires next { here.old.next < 262144 }
    requires stack { 0 < state.old.stack }
    ensures comes { Comes image.now (calls image.now r (drop from state.old.operands.items) (reverse (take below state.old.operands.items))) here.old here.new waiting.old waiting.new state.old state.new result }
    ensures few { vec_len state.new.operands ≤ 256 }
    ensures capacity { vec_capacity state.new.operands ≡ vec_capacity state.old.operands }
    ensures first { 0 < here.new.first }
    ensures stack { 0 < state.new.stack }
{
    let Some(q) = procedure_of(image, r) else {
        return Called::Unable;
    };
    if from + q.slots() as usize != state.operands.len() {
        return Called::Unable;
    }
    call(image, here, waiting, state, r, q, from, below)
}

// A call of a procedure of a number with as many operands as it has slots.
#[inline(always)]
fn call_named(
    image: &Image,
    here: &mut Place,
    waiting: &mut Calls,
    state: &mut State,
    r: ProcRef,
) -> Called
    requires few { vec_len state.old.operands ≤ 256 }
    requires first { 0 < here.old.first }
    requires next { here.old.next < 262144 }
    requires stack { 0 < state.old.stack }
    ensures comes { Comes image.now (calls_with image.now r (ops_of state.old)) here.old here.new waiting.old waiting.new state.old state.new result }
    ensures few { vec_len state.new.operands ≤ 256 }
    ensures capacity { vec_capacity state.new.operands ≡ vec_capacity state.old.operands }
    ensures first { 0 < here.new.first }
    ensures stack { 0 < state.new.stack }
{
    let Some(q) = procedure_of(image, r) else {
        return Called::Unable;
    };
    call_with(image, here, waiting, state, r, q)
}

/// Calls an own procedure of the module that the machine is in.
#[inline(never)]
pub fn call_own(
    image: &Image,
    unit: &Module,
    here: &mut Place,
    waiting: &mut Calls,
    state: &mut State,
    number: i32,
) -> Called
    requires unit { slice_get image.now.modules here.old.unit ≡ Some unit.now }
    requires few { vec_len state.old.operands ≤ 256 }
    requires first { 0 < here.old.first }
    requires next { here.old.next < 262144 }
    requires stack { 0 < state.old.stack }
    ensures comes { Comes image.now (λ w. on_found (below (length unit.now.procedures) number) (λ n. calls_with image.now (record { «module» = here.old.unit; proc = n }) (ops_of state.old) w)) here.old here.new waiting.old waiting.new state.old state.new result }
    ensures few { vec_len state.new.operands ≤ 256 }
    ensures capacity { vec_capacity state.new.operands ≡ vec_capacity state.old.operands }
    ensures first { 0 < here.new.first }
    ensures stack { 0 < state.new.stack }
{
    let Some(proc) = own_number(unit, number) else {
        return Called::Unable;
    };
    let r = ProcRef {
        module: here.unit,
        proc,
    };
    call_with(image, here, waiting, state, r, procedure_at(unit, proc))
}

/// Calls what the instruction of a call names.
pub fn call_it(
    image: &Image,
    here: &mut Place,
    waiting: &mut Calls,
    state: &mut State,
    callee: Callee,
) -> Called
    requires within { IsWithin state.old.operands.items callee }
    requires few { vec_len state.old.operands ≤ 256 }
    requires first { 0 < here.old.first }
    requires next { here.old.next < 262144 }
    requires stack { 0 < state.old.stack }
    ensures comes { Comes image.now (callee_effect image.now state.old.operands.items callee) here.old here.new waiting.old waiting.new state.old state.new result }
    ensures few { vec_len state.new.operands ≤ 256 }
    ensures capacity { vec_capacity state.new.operands ≡ vec_capacity state.old.operands }
    ensures first { 0 < here.new.first }
    ensures stack { 0 < state.new.stack }
{
    match callee {
        Callee::With(r) => call_named(image, here, waiting, state, r),
        Callee::At {
            procedure,
            from,
            below,
        } => call_from(image, here, waiting, state, procedure, from, below),
        Callee::Nil => Called::Traps(Trap::Nil),
        Callee::Unable => Called::Unable,
    }
}
