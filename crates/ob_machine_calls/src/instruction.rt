//! The instructions of calls and returns.

ghost use Rattle.std.specs.Prelude.{◌≡◌, ◌+◌, ◌≤◌, ◌<◌, ◌⊎◌, ℕ, true, length, reverse, slice_get, Some, vec_len, vec_capacity};
ghost use Rattle.std.specs.List.{AllByRecursion};
ghost use Rattle.ob_instr.specs.Image.{World};
ghost use Rattle.ob_instr.specs.Table.{row};
ghost use Rattle.ob_machine_operands.specs.Effects.{ops_of};
ghost use Rattle.ob_machine_step.specs.Places.{is_call};
ghost use Rattle.ob_machine_calls.specs.Callees.{callee_effect, IsWithin, is_other_call};
ghost use Rattle.ob_machine_calls.specs.Reached.{Comes};

use crate::callee::{Callee, linked};
use crate::calling::Called;
use crate::calls::{Calls, Place};
use crate::methods::{of_pointer, of_record, of_type, of_value};
use crate::returns::{return_with, return_without};
use crate::rows::{call_it, call_own};
use ob_instr::{Instr, Opcode};
use ob_machine_image::{Image, Module};
use ob_machine_operands::State;
use ob_mem::Memory;

// What the instruction of a call names that is none of an own procedure.
fn callee_of(image: &Image, unit: &Module, words: &Memory, operands: &[i32], instr: Instr) -> Callee
    ensures effect { is_other_call instr.op ≡ true → (m p fb pc : ℕ) (w : World) → w.words ≡ words.now.words → row image.now unit.now m p fb pc instr.op instr.a instr.b (reverse operands.now) w ≡ callee_effect image.now operands.now result w }
    ensures within { IsWithin operands.now result }
{
    match instr.op {
        Opcode::CallX => linked(unit, instr, operands),
        Opcode::CallV => of_value(instr, operands),
        Opcode::CallP => of_pointer(image, words, instr, operands),
        Opcode::CallR => of_record(image, instr, operands),
        Opcode::CallS => of_type(image, unit, instr, operands),
        _ => Callee::Unable,
    }
}

#[inline(never)]
fn call_by(
    image: &Image,
    unit: &Module,
    here: &mut Place,
    calls: &mut Calls,
    state: &mut State,
    op: Opcode,
    a: i32,
    b: i32,
) -> Called
    requires next { here.old.next < 262144 }
    requires first { 0 < here.old.first }
    requires stack { 0 < state.old.stack }
    requires few { vec_len state.old.operands ≤ 256 }
    ensures comes { is_other_call op ≡ true → Comes image.now (row image.now unit.now here.old.unit here.old.procedure here.old.first here.old.next op a b (ops_of state.old)) here.old here.new calls.old calls.new state.old state.new result }
    ensures few { vec_len state.new.operands ≤ 256 }
    ensures capacity { vec_capacity state.new.operands ≡ vec_capacity state.old.operands }
    ensures first { 0 < here.new.first }
    ensures stack { 0 < state.new.stack }
{
    let instr = Instr { op, a, b };
    let callee = callee_of(image, unit, &state.words, &state.operands, instr);
    call_it(image, here, calls, state, callee)
}

#[inline(always)]
fn come_to(
    image: &Image,
    unit: &Module,
    here: &mut Place,
    calls: &mut Calls,
    state: &mut State,
    instr: Instr,
) -> Called
    requires next { here.old.next < 262144 }
    requires first { 0 < here.old.first }
    requires stack { 0 < state.old.stack }
    requires few { vec_len state.old.operands ≤ 256 }
    requires room { 257 ≤ vec_capacity state.old.operands }
    requires unit { slice_get image.now.modules here.old.unit ≡ Some unit.now }
    requires call { is_call instr.op ≡ true }
    ensures comes { Comes image.now (row image.now unit.now here.old.unit here.old.procedure here.old.first here.old.next instr.op instr.a instr.b (ops_of state.old)) here.old here.new calls.old calls.new state.old state.new result }
    ensures few { vec_len state.new.operands ≤ 257 }
    ensures capacity { 257 ≤ vec_capacity state.new.operands }
    ensures first { 0 < here.new.first }
    ensures stack { 0 < state.new.stack }
{
    match instr.op {
        Opcode::Call => call_own(image, unit, here, calls, state, instr.a),
        Opcode::Ret => return_without(unit, here, calls, state),
        Opcode::RetV => return_with(unit, here, calls, state),
        op => call_by(image, unit, here, calls, state, op, instr.a, instr.b),
    }
}

/// Does a call or a return, by its row of the table. A call that begins spends a turn, and a return
/// ends one of the calls that wait. After a return up to 257 operands stand. Takes no memory.
#[inline(always)]
pub fn call_or_return(
    image: &Image,
    unit: &Module,
    here: &mut Place,
    calls: &mut Calls,
    state: &mut State,
    instr: Instr,
) -> Called
    requires next { here.old.next < 262144 }
    requires first { 0 < here.old.first }
    requires stack { 0 < state.old.stack }
    requires few { vec_len state.old.operands ≤ 256 }
    requires room { 257 ≤ vec_capacity state.old.operands }
    requires unit { slice_get image.now.modules here.old.unit ≡ Some unit.now }
    requires call { is_call instr.op ≡ true }
    ensures comes { Comes image.now (row image.now unit.now here.old.unit here.old.procedure here.old.first here.old.next instr.op instr.a instr.b (ops_of state.old)) here.old here.new calls.old calls.new state.old state.new result }
    ensures less { result ≡ Called.Goes → (state.new.turns + 1 ≡ state.old.turns) ⊎ ((state.new.turns ≡ state.old.turns) × (length calls.new < length calls.old)) }
    ensures units { result ≡ Called.Goes → (n : ℕ) → n ≡ length image.now.modules → here.old.unit < n → AllByRecursion (λ a. a.m < n) calls.old → (here.new.unit < n) × AllByRecursion (λ a. a.m < n) calls.new }
    ensures few { vec_len state.new.operands ≤ 257 }
    ensures capacity { 257 ≤ vec_capacity state.new.operands }
    ensures first { 0 < here.new.first }
    ensures stack { 0 < state.new.stack }
{
    come_to(image, unit, here, calls, state, instr)
}
