//! Sets as words.

ghost use Rattle.std.specs.Prelude.{◌≡◌, ◌≤◌, ◌<◌, ◌^◌, ℕ, ◌∷◌, pos, vec_len, vec_capacity, IfSome, IfNone};
ghost use Rattle.std.specs.Int.{w32, int_bit_and, int_bit_or, int_bit_xor, int_bit_not};
ghost use Rattle.ob_instr.specs.Image.{World};
ghost use Rattle.ob_instr.specs.Rows.{Effect, Next, Traps, on_one, on_two, on_element, set_from, has_element, truth};
ghost use Rattle.ob_machine_operands.specs.Effects.{Does, Keeps};
ghost use Rattle.ob_trap.specs.declared.trap.Trap.TheVariants as trap;

use crate::numbers::power;
use crate::operands::{take, take_two};
use crate::state::{State, Step};
use crate::values::push;
use ob_trap::Trap;

/// The element of a set that a word is; `None` exactly where it is not from 0 to 31.
pub fn element(word: i32) -> Option<u32>
    ensures some { IfSome result (λ i. (word ≡ pos i) × (i < 32)) }
    ensures none { IfNone result ((w : World) → (k : ℕ → Effect) → on_element word w k ≡ Traps trap.NoElement (pos 0) w) }
{
    if word < 0 || word >= 32 {
        return None;
    }
    Some(word as u32)
}

// The set of the elements from one to another.
fn set_of(first: u32, last: u32) -> i32
    requires first { first < 32 }
    requires last { last < 32 }
    ensures { result ≡ set_from first last }
{
    if first > last {
        return 0;
    }
    let bits = power(last + 1) - power(first);
    (bits as u32).cast_signed()
}

/// A set with an element.
pub fn with_element(set: i32, element: u32) -> i32
    requires { element < 32 }
    ensures { result ≡ int_bit_or w32 set (set_from element element) }
{
    set | set_of(element, element)
}

/// A set without an element.
pub fn without_element(set: i32, element: u32) -> i32
    requires { element < 32 }
    ensures { result ≡ int_bit_and w32 set (int_bit_not w32 (set_from element element)) }
{
    set & !set_of(element, element)
}

// Whether a set has an element.
fn has(set: i32, element: u32) -> bool
    requires { element < 32 }
    ensures { result ≡ has_element element set }
{
    (set.cast_unsigned() >> element) % 2 == 1
}

/// Union: the set of the elements of either set.
pub fn union(state: &mut State) -> Step
    requires room { 257 ≤ vec_capacity state.old.operands }
    requires few { vec_len state.old.operands ≤ 256 }
    ensures does { Does (λ ops w. on_two ops (λ x y rest. Next (int_bit_or w32 x y ∷ rest) w)) state.old state.new result }
    ensures keeps { Keeps state.old state.new result }
    ensures room { vec_capacity state.new.operands ≡ vec_capacity state.old.operands }
{
    let Some((x, y)) = take_two(&mut state.operands) else {
        return Step::Unable;
    };
    push(state, x | y)
}

/// Minus: the set of the elements of the first set that the second has not.
pub fn minus(state: &mut State) -> Step
    requires room { 257 ≤ vec_capacity state.old.operands }
    requires few { vec_len state.old.operands ≤ 256 }
    ensures does { Does (λ ops w. on_two ops (λ x y rest. Next (int_bit_and w32 x (int_bit_not w32 y) ∷ rest) w)) state.old state.new result }
    ensures keeps { Keeps state.old state.new result }
    ensures room { vec_capacity state.new.operands ≡ vec_capacity state.old.operands }
{
    let Some((x, y)) = take_two(&mut state.operands) else {
        return Step::Unable;
    };
    push(state, x & !y)
}

/// Meet: the set of the elements of both sets.
pub fn meet(state: &mut State) -> Step
    requires room { 257 ≤ vec_capacity state.old.operands }
    requires few { vec_len state.old.operands ≤ 256 }
    ensures does { Does (λ ops w. on_two ops (λ x y rest. Next (int_bit_and w32 x y ∷ rest) w)) state.old state.new result }
    ensures keeps { Keeps state.old state.new result }
    ensures room { vec_capacity state.new.operands ≡ vec_capacity state.old.operands }
{
    let Some((x, y)) = take_two(&mut state.operands) else {
        return Step::Unable;
    };
    push(state, x & y)
}

/// Xor: the set of the elements of exactly one of the sets.
pub fn differ(state: &mut State) -> Step
    requires room { 257 ≤ vec_capacity state.old.operands }
    requires few { vec_len state.old.operands ≤ 256 }
    ensures does { Does (λ ops w. on_two ops (λ x y rest. Next (int_bit_xor w32 x y ∷ rest) w)) state.old state.new result }
    ensures keeps { Keeps state.old state.new result }
    ensures room { vec_capacity state.new.operands ≡ vec_capacity state.old.operands }
{
    let Some((x, y)) = take_two(&mut state.operands) else {
        return Step::Unable;
    };
    push(state, x ^ y)
}

/// Compl: the set of the elements that the set has not.
pub fn complement(state: &mut State) -> Step
    requires room { 257 ≤ vec_capacity state.old.operands }
    requires few { vec_len state.old.operands ≤ 256 }
    ensures does { Does (λ ops w. on_one ops (λ v rest. Next (int_bit_not w32 v ∷ rest) w)) state.old state.new result }
    ensures keeps { Keeps state.old state.new result }
    ensures room { vec_capacity state.new.operands ≡ vec_capacity state.old.operands }
{
    let Some(v) = take(&mut state.operands) else {
        return Step::Unable;
    };
    push(state, !v)
}

/// Bit: the set of one element. Trap 9 where the operand is not from 0 to 31.
pub fn bit(state: &mut State) -> Step
    requires room { 257 ≤ vec_capacity state.old.operands }
    requires few { vec_len state.old.operands ≤ 256 }
    ensures does { Does (λ ops w. on_one ops (λ v rest. on_element v w (λ i. Next (set_from i i ∷ rest) w))) state.old state.new result }
    ensures keeps { Keeps state.old state.new result }
    ensures room { vec_capacity state.new.operands ≡ vec_capacity state.old.operands }
{
    let Some(v) = take(&mut state.operands) else {
        return Step::Unable;
    };
    let Some(i) = element(v) else {
        return Step::Traps {
            kind: Trap::NoElement,
            number: 0,
        };
    };
    push(state, set_of(i, i))
}

/// Bits: the set of the elements from one to another. Trap 9 where one of them is not from 0 to 31.
pub fn bits(state: &mut State) -> Step
    requires room { 257 ≤ vec_capacity state.old.operands }
    requires few { vec_len state.old.operands ≤ 256 }
    ensures does { Does (λ ops w. on_two ops (λ x y rest. on_element x w (λ i. on_element y w (λ j. Next (set_from i j ∷ rest) w)))) state.old state.new result }
    ensures keeps { Keeps state.old state.new result }
    ensures room { vec_capacity state.new.operands ≡ vec_capacity state.old.operands }
{
    let Some((x, y)) = take_two(&mut state.operands) else {
        return Step::Unable;
    };
    let Some(i) = element(x) else {
        return Step::Traps {
            kind: Trap::NoElement,
            number: 0,
        };
    };
    let Some(j) = element(y) else {
        return Step::Traps {
            kind: Trap::NoElement,
            number: 0,
        };
    };
    push(state, set_of(i, j))
}

/// In: 1 where the set has the element, else 0. Trap 9 where the element is not from 0 to 31.
pub fn contains(state: &mut State) -> Step
    requires room { 257 ≤ vec_capacity state.old.operands }
    requires few { vec_len state.old.operands ≤ 256 }
    ensures does { Does (λ ops w. on_two ops (λ v s rest. on_element v w (λ i. Next (truth (has_element i s) ∷ rest) w))) state.old state.new result }
    ensures keeps { Keeps state.old state.new result }
    ensures room { vec_capacity state.new.operands ≡ vec_capacity state.old.operands }
{
    let Some((v, set)) = take_two(&mut state.operands) else {
        return Step::Unable;
    };
    let Some(i) = element(v) else {
        return Step::Traps {
            kind: Trap::NoElement,
            number: 0,
        };
    };
    push(state, i32::from(has(set, i)))
}
