//! Which bound procedure a tag names.

ghost use Rattle.std.specs.Prelude.{◌≡◌, ◌+◌, ◌≤◌, ◌<◌, suc, length, pos, ◌-ℤ◌, if◌then◌else◌, reverse, slice_get, IfSome, Some};
ghost use Rattle.ob_mem.specs.Words.{word_at};
ghost use Rattle.ob_instr.specs.Image.{Image as Modules, World};
ghost use Rattle.ob_instr.specs.Rows.{Effect, Traps, Unable, on_found, on_count, on_args, on_one, on_receiver, on_tag, item, is_zero, calls, calls_with, proc_of_value, method_at, tag_method, pointer_method};
ghost use Rattle.ob_machine_calls.specs.Callees.{callee_effect, IsWithin};
ghost use Rattle.ob_machine_calls.specs.Starts.{start_of};
ghost use Rattle.ob_trap.specs.declared.trap.Trap.TheVariants as trap;

use crate::callee::Callee;
use ob_instr::Instr;
use ob_machine_image::{Image, Module, Types};
use ob_mem::Memory;
use ob_tree::ProcRef;

// How many operands stand below the last ones, so many and some more, where they are there.
#[inline(always)]
fn start_of(len: usize, count: i32, more: usize) -> Option<usize>
    requires { more ≤ 2 }
    ensures start { result ≡ start_of len count more }
    ensures within { IfSome result (λ from. from + more ≤ len) }
{
    if count < 0 {
        return None;
    }
    let count = count as usize + more;
    if count > len {
        return None;
    }
    Some(len - count)
}

/// The operand at an index, the lowest at 0.
#[inline(always)]
pub fn operand(operands: &[i32], at: usize) -> i32
    requires { at < length operands.now }
    ensures { slice_get operands.now at ≡ Some result }
{
    operands[at]
}

// The procedure of a value that is not 0.
#[inline(always)]
fn procedure_of_value(value: i32) -> Option<ProcRef>
    ensures { result ≡ proc_of_value value }
{
    if value <= 0 {
        return None;
    }
    let number = value as u32 - 1;
    Some(ProcRef {
        module: number / 65536,
        proc: number % 65536,
    })
}

/// What a call of a procedure value names.
pub fn of_value(instr: Instr, operands: &[i32]) -> Callee
    ensures effect { (img : Modules) (w : World) → on_count instr.a (λ n. on_args n (reverse operands.now) (λ args rest. on_one rest (λ v below. if is_zero v then Traps trap.Nil (pos 0) w else on_found (proc_of_value v) (λ r. calls img r args below w)))) ≡ callee_effect img operands.now result w }
    ensures within { IsWithin operands.now result }
{
    let Some(from) = start_of(operands.len(), instr.a, 0) else {
        return Callee::Unable;
    };
    if from == 0 {
        return Callee::Unable;
    }
    let below = from - 1;
    let value = operand(operands, below);
    if value == 0 {
        return Callee::Nil;
    }
    let Some(procedure) = procedure_of_value(value) else {
        return Callee::Unable;
    };
    Callee::At {
        procedure,
        from,
        below,
    }
}

// The procedure of a number of a type.
#[inline(always)]
fn method_at(types: &Types, t: u32, number: i32) -> Option<ProcRef>
    ensures { result ≡ method_at (slice_get types.now t) number }
{
    if number < 0 || t >= types.count() {
        return None;
    }
    types.table().method(t, number as u32)
}

// The same for the type of a tag.
#[inline(always)]
fn tag_method(image: &Image, tag: i32, number: i32) -> Option<ProcRef>
    ensures { result ≡ tag_method image.now tag number }
{
    if tag <= 0 {
        return None;
    }
    method_at(image.types(), tag as u32 - 1, number)
}

// The same for the type of a pointer's object.
#[inline(always)]
fn pointer_method(image: &Image, words: &Memory, pointer: i32, number: i32) -> Option<ProcRef>
    ensures { (w : World) → w.words ≡ words.now.words → (k : ProcRef → Effect) → pointer_method image.now w pointer number k ≡ on_found result k }
{
    let tag = words.load(i64::from(pointer) - 1)?;
    tag_method(image, tag, number)
}

/// What a call of a procedure bound to a pointer's object names.
#[inline(always)]
pub fn of_pointer(image: &Image, words: &Memory, instr: Instr, operands: &[i32]) -> Callee
    ensures effect { (w : World) → w.words ≡ words.now.words → on_count instr.b (λ n. on_args (suc n) (reverse operands.now) (λ args rest. on_receiver args (λ x. if is_zero x then Traps trap.Nil (pos 0) w else pointer_method image.now w x instr.a (λ r. calls image.now r args rest w)))) ≡ callee_effect image.now operands.now result w }
    ensures within { IsWithin operands.now result }
{
    let Some(from) = start_of(operands.len(), instr.b, 1) else {
        return Callee::Unable;
    };
    let pointer = operand(operands, from);
    if pointer == 0 {
        return Callee::Nil;
    }
    let Some(procedure) = pointer_method(image, words, pointer, instr.a) else {
        return Callee::Unable;
    };
    Callee::At {
        procedure,
        from,
        below: from,
    }
}

/// What a call of a procedure bound to a record names.
#[inline(always)]
pub fn of_record(image: &Image, instr: Instr, operands: &[i32]) -> Callee
    ensures effect { (w : World) → on_count instr.b (λ n. on_args (suc (suc n)) (reverse operands.now) (λ args rest. on_tag args (λ g. on_found (tag_method image.now g instr.a) (λ r. calls image.now r args rest w)))) ≡ callee_effect image.now operands.now result w }
    ensures within { IsWithin operands.now result }
{
    let Some(from) = start_of(operands.len(), instr.b, 2) else {
        return Callee::Unable;
    };
    let tag = operand(operands, from + 1);
    let Some(procedure) = tag_method(image, tag, instr.a) else {
        return Callee::Unable;
    };
    Callee::At {
        procedure,
        from,
        below: from,
    }
}

fn type_of(unit: &Module, number: i32) -> Option<u32>
    ensures { result ≡ item unit.now.types number }
{
    if number < 0 {
        return None;
    }
    unit.types.get(number as usize).copied()
}

/// What a call of the procedure of a type names.
pub fn of_type(image: &Image, unit: &Module, instr: Instr, operands: &[i32]) -> Callee
    ensures effect { (w : World) → on_found (item unit.now.types instr.a) (λ t. on_found (method_at (slice_get image.now.types t) instr.b) (λ r. calls_with image.now r (reverse operands.now) w)) ≡ callee_effect image.now operands.now result w }
    ensures within { IsWithin operands.now result }
{
    let Some(t) = type_of(unit, instr.a) else {
        return Callee::Unable;
    };
    match method_at(image.types(), t, instr.b) {
        Some(r) => Callee::With(r),
        None => Callee::Unable,
    }
}
