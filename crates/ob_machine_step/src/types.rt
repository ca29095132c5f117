//! Instructions that test types.

ghost use Rattle.std.specs.Prelude.{◌≡◌, ◌≤◌, ◌<◌, ◌^◌, ◌∷◌, ℕ, pos, length, vec_len, vec_capacity, if◌then◌else◌, IfSome, Some, slice_get};
ghost use Rattle.ob_mem.specs.Words.{word_at};
ghost use Rattle.ob_tdesc.specs.Bases.{is_or_has_base};
ghost use Rattle.ob_instr.specs.Rows.{Next, Traps, on_one, on_found, below, item, word, tag, tag_passes, pointer_passes, truth, proc_value};
ghost use Rattle.ob_machine_operands.specs.Effects.{Does, Keeps};
ghost use Rattle.ob_machine_step.specs.Bases.{AreBelow};
ghost use Rattle.ob_trap.specs.declared.trap.Trap.TheVariants as trap;

use crate::jumps::below;
use ob_machine_operands::{State, Step, push, push_word, take};
use ob_mem::Memory;
use ob_tdesc::{Descriptors, Steps};
use ob_trap::Trap;
use ob_tree::ProcRef;
use std::marker::Brand;
use std::sync::ledger::{Blank, Ledger};

/// The item of a number.
pub fn item_of(items: &[u32], number: i32) -> Option<u32>
    ensures { result ≡ item items.now number }
{
    if number < 0 {
        return None;
    }
    items.get(number as usize).copied()
}

fn procedure_of(items: &[ProcRef], number: i32) -> Option<ProcRef>
    ensures { result ≡ item items.now number }
{
    if number < 0 {
        return None;
    }
    items.get(number as usize).copied()
}

// The test of two types with steps that nobody counts.
fn tests<L: Ledger>(descriptors: &Descriptors, a: u32, b: u32, blank: Blank) -> bool
    requires name { blank.name ≡ L.name }
    requires parts { blank.parts ≡ L.parts }
    requires some { 0 < L.parts }
    requires a { a < length descriptors.now.list }
    requires b { b < length descriptors.now.list }
    ensures { result ≡ is_or_has_base descriptors.now.list a b }
{
    let (book, share) = blank.open::<L>();
    let mut steps = Steps::new(book, share);
    descriptors.test(a, b, &mut steps)
}

// Whether a type is another or has it as a base.
fn extends(descriptors: &Descriptors, a: u32, b: u32) -> bool
    requires a { a < length descriptors.now.list }
    requires b { b < length descriptors.now.list }
    ensures { result ≡ is_or_has_base descriptors.now.list a b }
{
    tests::<Brand>(descriptors, a, b, Blank::new(1))
}

// Whether a tag passes the test of a type; none where there is no type of that tag.
#[tactic(auto, using(crate::proofs::Bases::no_base))]
fn tag_passes(descriptors: &Descriptors, count: u32, tag: i32, t: u32) -> Option<bool>
    requires count { count ≡ length descriptors.now.list }
    requires bases { AreBelow descriptors.now.list }
    ensures { result ≡ tag_passes descriptors.now.list tag t }
{
    if tag == 0 {
        return Some(false);
    }
    if tag < 0 {
        return None;
    }
    let a = tag as u32 - 1;
    if a >= count {
        return None;
    }
    if t >= count {
        return Some(false);
    }
    Some(extends(descriptors, a, t))
}

// The same for the object of a pointer.
fn pointer_passes(
    descriptors: &Descriptors,
    count: u32,
    words: &Memory,
    pointer: i32,
    t: u32,
) -> Option<bool>
    requires count { count ≡ length descriptors.now.list }
    requires bases { AreBelow descriptors.now.list }
    ensures { result ≡ pointer_passes descriptors.now.list words.now.words pointer t }
{
    if pointer == 0 {
        return Some(false);
    }
    let tag = words.load(i64::from(pointer) - 1)?;
    tag_passes(descriptors, count, tag, t)
}

pub fn push_tag(state: &mut State, types: &[u32], a: i32) -> Step
    requires room { 257 ≤ vec_capacity state.old.operands }
    requires few { vec_len state.old.operands ≤ 256 }
    ensures does { Does (λ ops w. on_found (item types.now a) (λ t. word (tag t) ops w)) state.old state.new result }
    ensures keeps { Keeps state.old state.new result }
    ensures room { vec_capacity state.new.operands ≡ vec_capacity state.old.operands }
{
    let Some(t) = item_of(types, a) else {
        return Step::Unable;
    };
    push_word(state, i64::from(t) + 1)
}

pub fn external(state: &mut State, links: &[u64], a: i32) -> Step
    requires room { 257 ≤ vec_capacity state.old.operands }
    requires few { vec_len state.old.operands ≤ 256 }
    ensures does { Does (λ ops w. on_found (item links.now a) (λ x. word (pos x) ops w)) state.old state.new result }
    ensures keeps { Keeps state.old state.new result }
    ensures room { vec_capacity state.new.operands ≡ vec_capacity state.old.operands }
{
    if a < 0 {
        return Step::Unable;
    }
    let Some(at) = links.get(a as usize).copied() else {
        return Step::Unable;
    };
    if at > 2147483647 {
        return Step::Unable;
    }
    push(state, at as i32)
}

fn procedure(state: &mut State, module: u32, proc: u32) -> Step
    requires room { 257 ≤ vec_capacity state.old.operands }
    requires few { vec_len state.old.operands ≤ 256 }
    ensures does { Does (λ ops w. word (proc_value (record { «module» = «module»; proc = proc })) ops w) state.old state.new result }
    ensures keeps { Keeps state.old state.new result }
    ensures room { vec_capacity state.new.operands ≡ vec_capacity state.old.operands }
{
    push_word(state, 1 + (65536 * i64::from(module) + i64::from(proc)))
}

pub fn own_procedure(state: &mut State, procedures: usize, module: u32, a: i32) -> Step
    requires room { 257 ≤ vec_capacity state.old.operands }
    requires few { vec_len state.old.operands ≤ 256 }
    ensures does { Does (λ ops w. on_found (below procedures a) (λ q. word (proc_value (record { «module» = «module»; proc = q })) ops w)) state.old state.new result }
    ensures keeps { Keeps state.old state.new result }
    ensures room { vec_capacity state.new.operands ≡ vec_capacity state.old.operands }
{
    match below(procedures, a) {
        Some(proc) => procedure(state, module, proc),
        None => Step::Unable,
    }
}

pub fn linked_procedure(state: &mut State, links: &[ProcRef], a: i32) -> Step
    requires room { 257 ≤ vec_capacity state.old.operands }
    requires few { vec_len state.old.operands ≤ 256 }
    ensures does { Does (λ ops w. on_found (item links.now a) (λ r. word (proc_value r) ops w)) state.old state.new result }
    ensures keeps { Keeps state.old state.new result }
    ensures room { vec_capacity state.new.operands ≡ vec_capacity state.old.operands }
{
    let Some(link) = procedure_of(links, a) else {
        return Step::Unable;
    };
    procedure(state, link.module, link.proc)
}

pub fn is_pointer(
    state: &mut State,
    descriptors: &Descriptors,
    count: u32,
    types: &[u32],
    a: i32,
) -> Step
    requires room { 257 ≤ vec_capacity state.old.operands }
    requires few { vec_len state.old.operands ≤ 256 }
    requires count { count ≡ length descriptors.now.list }
    requires bases { AreBelow descriptors.now.list }
    ensures does { Does (λ ops w. on_found (item types.now a) (λ t. on_one ops (λ x rest. on_found (pointer_passes descriptors.now.list w.words x t) (λ yes. Next (truth yes ∷ rest) w)))) state.old state.new result }
    ensures keeps { Keeps state.old state.new result }
    ensures room { vec_capacity state.new.operands ≡ vec_capacity state.old.operands }
{
    let Some(t) = item_of(types, a) else {
        return Step::Unable;
    };
    let Some(x) = take(&mut state.operands) else {
        return Step::Unable;
    };
    let Some(passes) = pointer_passes(descriptors, count, &state.words, x, t) else {
        return Step::Unable;
    };
    push(state, i32::from(passes))
}

pub fn is_record(
    state: &mut State,
    descriptors: &Descriptors,
    count: u32,
    types: &[u32],
    a: i32,
) -> Step
    requires room { 257 ≤ vec_capacity state.old.operands }
    requires few { vec_len state.old.operands ≤ 256 }
    requires count { count ≡ length descriptors.now.list }
    requires bases { AreBelow descriptors.now.list }
    ensures does { Does (λ ops w. on_found (item types.now a) (λ t. on_one ops (λ g rest. on_found (tag_passes descriptors.now.list g t) (λ yes. Next (truth yes ∷ rest) w)))) state.old state.new result }
    ensures keeps { Keeps state.old state.new result }
    ensures room { vec_capacity state.new.operands ≡ vec_capacity state.old.operands }
{
    let Some(t) = item_of(types, a) else {
        return Step::Unable;
    };
    let Some(tag) = take(&mut state.operands) else {
        return Step::Unable;
    };
    let Some(passes) = tag_passes(descriptors, count, tag, t) else {
        return Step::Unable;
    };
    push(state, i32::from(passes))
}

pub fn guard_at(
    state: &mut State,
    descriptors: &Descriptors,
    count: u32,
    types: &[u32],
    a: i32,
) -> Step
    requires room { 257 ≤ vec_capacity state.old.operands }
    requires few { vec_len state.old.operands ≤ 256 }
    requires count { count ≡ length descriptors.now.list }
    requires bases { AreBelow descriptors.now.list }
    ensures does { Does (λ ops w. on_found (item types.now a) (λ t. on_one ops (λ x rest. on_found (word_at w.words x) (λ v. on_found (pointer_passes descriptors.now.list w.words v t) (λ yes. if yes then Next (x ∷ rest) w else Traps trap.GuardFails (pos 0) w))))) state.old state.new result }
    ensures keeps { Keeps state.old state.new result }
    ensures room { vec_capacity state.new.operands ≡ vec_capacity state.old.operands }
{
    let Some(t) = item_of(types, a) else {
        return Step::Unable;
    };
    let Some(x) = take(&mut state.operands) else {
        return Step::Unable;
    };
    let Some(pointer) = state.words.load(i64::from(x)) else {
        return Step::Unable;
    };
    let Some(passes) = pointer_passes(descriptors, count, &state.words, pointer, t) else {
        return Step::Unable;
    };
    if !passes {
        return Step::Traps {
            kind: Trap::GuardFails,
            number: 0,
        };
    }
    push(state, x)
}

pub fn guard_record(
    state: &mut State,
    descriptors: &Descriptors,
    count: u32,
    types: &[u32],
    a: i32,
) -> Step
    requires room { 257 ≤ vec_capacity state.old.operands }
    requires few { vec_len state.old.operands ≤ 256 }
    requires count { count ≡ length descriptors.now.list }
    requires bases { AreBelow descriptors.now.list }
    ensures does { Does (λ ops w. on_found (item types.now a) (λ t. on_one ops (λ g rest. on_found (tag_passes descriptors.now.list g t) (λ yes. if yes then Next (g ∷ rest) w else Traps trap.GuardFails (pos 0) w)))) state.old state.new result }
    ensures keeps { Keeps state.old state.new result }
    ensures room { vec_capacity state.new.operands ≡ vec_capacity state.old.operands }
{
    let Some(t) = item_of(types, a) else {
        return Step::Unable;
    };
    let Some(tag) = take(&mut state.operands) else {
        return Step::Unable;
    };
    let Some(passes) = tag_passes(descriptors, count, tag, t) else {
        return Step::Unable;
    };
    if !passes {
        return Step::Traps {
            kind: Trap::GuardFails,
            number: 0,
        };
    }
    push(state, tag)
}
