//! Instructions that push, take and reckon with words.

ghost use Rattle.std.specs.Prelude.{◌≡◌, ◌≤◌, ◌∷◌, ℤ, pos, ◌+ℤ◌, ◌-ℤ◌, ◌*ℤ◌, neg_ℤ, int_lt, vec_len, vec_capacity, if◌then◌else◌};
ghost use Rattle.std.specs.Int.{int_div_euclid, int_rem_euclid};
ghost use Rattle.ob_instr.specs.Rows.{Next, Traps, on_one, on_two, on_three, on_width, word, in_type, in_width, compared, truth, is_within, is_zero, magnitude, shifted, capital};
ghost use Rattle.ob_machine_operands.specs.Effects.{Does, Keeps, holds_of};
ghost use Rattle.ob_trap.specs.declared.trap.Trap.TheVariants as trap;

use crate::numbers::{
    Comparison, Fit, capital, difference, element_at, fitted, is_within, negated, product, sum,
    word_of,
};
use crate::operands::{put, take, take_three, take_two};
use crate::state::{State, Step};
use ob_trap::Trap;

/// One more operand.
pub fn push(state: &mut State, value: i32) -> Step
    requires room { 257 ≤ vec_capacity state.old.operands }
    requires few { vec_len state.old.operands ≤ 256 }
    ensures goes { result ≡ Step.Goes }
    ensures does { Does (λ ops w. Next (value ∷ ops) w) state.old state.new result }
    ensures keeps { Keeps state.old state.new result }
    ensures room { vec_capacity state.new.operands ≡ vec_capacity state.old.operands }
{
    put(&mut state.operands, value);
    Step::Goes
}

/// One more operand, which has to be a word.
pub fn push_word(state: &mut State, number: i64) -> Step
    requires room { 257 ≤ vec_capacity state.old.operands }
    requires few { vec_len state.old.operands ≤ 256 }
    ensures does { Does (λ ops w. word number ops w) state.old state.new result }
    ensures keeps { Keeps state.old state.new result }
    ensures room { vec_capacity state.new.operands ≡ vec_capacity state.old.operands }
{
    match word_of(number) {
        Some(value) => push(state, value),
        None => Step::Unable,
    }
}

/// One more operand, which has to be in the integer type of so many bytes.
pub fn push_in_type(state: &mut State, bytes: i32, number: i64) -> Step
    requires room { 257 ≤ vec_capacity state.old.operands }
    requires few { vec_len state.old.operands ≤ 256 }
    ensures does { Does (λ ops w. on_width bytes (λ n. in_type n number ops w)) state.old state.new result }
    ensures keeps { Keeps state.old state.new result }
    ensures room { vec_capacity state.new.operands ≡ vec_capacity state.old.operands }
{
    match fitted(bytes, number) {
        Fit::Without => Step::Unable,
        Fit::Outside => Step::Traps {
            kind: Trap::Overflow,
            number: 0,
        },
        Fit::Inside(value) => push(state, value),
    }
}

/// The address of a variable, from that of the first word.
pub fn address(state: &mut State, first: u32, a: i32) -> Step
    requires room { 257 ≤ vec_capacity state.old.operands }
    requires few { vec_len state.old.operands ≤ 256 }
    ensures does { Does (λ ops w. word (pos first +ℤ a) ops w) state.old state.new result }
    ensures keeps { Keeps state.old state.new result }
    ensures room { vec_capacity state.new.operands ≡ vec_capacity state.old.operands }
{
    push_word(state, i64::from(first) + i64::from(a))
}

/// Drop: takes the last operand away.
pub fn drop_one(state: &mut State) -> Step
    ensures does { Does (λ ops w. on_one ops (λ v rest. Next rest w)) state.old state.new result }
    ensures keeps { Keeps state.old state.new result }
    ensures room { vec_capacity state.new.operands ≡ vec_capacity state.old.operands }
{
    match take(&mut state.operands) {
        Some(_) => Step::Goes,
        None => Step::Unable,
    }
}

/// Offset: the address `a` words behind the one that stands.
pub fn offset(state: &mut State, a: i32) -> Step
    requires room { 257 ≤ vec_capacity state.old.operands }
    requires few { vec_len state.old.operands ≤ 256 }
    ensures does { Does (λ ops w. on_one ops (λ x rest. word (x +ℤ a) rest w)) state.old state.new result }
    ensures keeps { Keeps state.old state.new result }
    ensures room { vec_capacity state.new.operands ≡ vec_capacity state.old.operands }
{
    let Some(x) = take(&mut state.operands) else {
        return Step::Unable;
    };
    push_word(state, i64::from(x) + i64::from(a))
}

/// Index: the address of an element of `b` words, of which there are `a`. Trap 1 where the index is not
/// from 0 to `a` - 1.
pub fn index(state: &mut State, a: i32, b: i32) -> Step
    requires room { 257 ≤ vec_capacity state.old.operands }
    requires few { vec_len state.old.operands ≤ 256 }
    ensures does { Does (λ ops w. on_two ops (λ x i rest. if is_within i a then word (x +ℤ (i *ℤ b)) rest w else Traps trap.IndexOutside (pos 0) w)) state.old state.new result }
    ensures keeps { Keeps state.old state.new result }
    ensures room { vec_capacity state.new.operands ≡ vec_capacity state.old.operands }
{
    let Some((x, i)) = take_two(&mut state.operands) else {
        return Step::Unable;
    };
    if !is_within(i, a) {
        return Step::Traps {
            kind: Trap::IndexOutside,
            number: 0,
        };
    }
    push_word(state, element_at(x, i, b))
}

/// IndexO: the address of an element of `a` words of an open array, whose length stands below the index.
/// Trap 1 where the index is not from 0 to the length - 1.
pub fn index_open(state: &mut State, a: i32) -> Step
    requires room { 257 ≤ vec_capacity state.old.operands }
    requires few { vec_len state.old.operands ≤ 256 }
    ensures does { Does (λ ops w. on_three ops (λ x l i rest. if is_within i l then word (x +ℤ (i *ℤ a)) rest w else Traps trap.IndexOutside (pos 0) w)) state.old state.new result }
    ensures keeps { Keeps state.old state.new result }
    ensures room { vec_capacity state.new.operands ≡ vec_capacity state.old.operands }
{
    let Some((x, l, i)) = take_three(&mut state.operands) else {
        return Step::Unable;
    };
    if !is_within(i, l) {
        return Step::Traps {
            kind: Trap::IndexOutside,
            number: 0,
        };
    }
    push_word(state, element_at(x, i, a))
}

/// Add: the sum of two operands. Trap 8 where it is outside the integer type of so many bytes.
pub fn add(state: &mut State, bytes: i32) -> Step
    requires room { 257 ≤ vec_capacity state.old.operands }
    requires few { vec_len state.old.operands ≤ 256 }
    ensures does { Does (λ ops w. on_width bytes (λ n. on_two ops (λ x y rest. in_type n (x +ℤ y) rest w))) state.old state.new result }
    ensures keeps { Keeps state.old state.new result }
    ensures room { vec_capacity state.new.operands ≡ vec_capacity state.old.operands }
{
    let Some((x, y)) = take_two(&mut state.operands) else {
        return Step::Unable;
    };
    push_in_type(state, bytes, sum(x, y))
}

/// Sub: the difference of two operands. Trap 8 where it is outside the integer type of so many bytes.
pub fn sub(state: &mut State, bytes: i32) -> Step
    requires room { 257 ≤ vec_capacity state.old.operands }
    requires few { vec_len state.old.operands ≤ 256 }
    ensures does { Does (λ ops w. on_width bytes (λ n. on_two ops (λ x y rest. in_type n (x -ℤ y) rest w))) state.old state.new result }
    ensures keeps { Keeps state.old state.new result }
    ensures room { vec_capacity state.new.operands ≡ vec_capacity state.old.operands }
{
    let Some((x, y)) = take_two(&mut state.operands) else {
        return Step::Unable;
    };
    push_in_type(state, bytes, difference(x, y))
}

/// Mul: the product of two operands. Trap 8 where it is outside the integer type of so many bytes.
pub fn mul(state: &mut State, bytes: i32) -> Step
    requires room { 257 ≤ vec_capacity state.old.operands }
    requires few { vec_len state.old.operands ≤ 256 }
    ensures does { Does (λ ops w. on_width bytes (λ n. on_two ops (λ x y rest. in_type n (x *ℤ y) rest w))) state.old state.new result }
    ensures keeps { Keeps state.old state.new result }
    ensures room { vec_capacity state.new.operands ≡ vec_capacity state.old.operands }
{
    let Some((x, y)) = take_two(&mut state.operands) else {
        return Step::Unable;
    };
    push_in_type(state, bytes, product(x, y))
}

/// Div: the quotient of two operands, rounded down. Trap 7 where the divisor is not above 0.
pub fn div(state: &mut State) -> Step
    requires room { 257 ≤ vec_capacity state.old.operands }
    requires few { vec_len state.old.operands ≤ 256 }
    ensures does { Does (λ ops w. on_two ops (λ x y rest. if int_lt (pos 0) y then Next (int_div_euclid x y ∷ rest) w else Traps trap.NoDivisor (pos 0) w)) state.old state.new result }
    ensures keeps { Keeps state.old state.new result }
    ensures room { vec_capacity state.new.operands ≡ vec_capacity state.old.operands }
{
    let Some((x, y)) = take_two(&mut state.operands) else {
        return Step::Unable;
    };
    if y <= 0 {
        return Step::Traps {
            kind: Trap::NoDivisor,
            number: 0,
        };
    }
    push(state, x.div_euclid(y))
}

/// Mod: the remainder of that division, from 0 to the divisor - 1. Trap 7 where the divisor is not above 0.
pub fn modulo(state: &mut State) -> Step
    requires room { 257 ≤ vec_capacity state.old.operands }
    requires few { vec_len state.old.operands ≤ 256 }
    ensures does { Does (λ ops w. on_two ops (λ x y rest. if int_lt (pos 0) y then Next (int_rem_euclid x y ∷ rest) w else Traps trap.NoDivisor (pos 0) w)) state.old state.new result }
    ensures keeps { Keeps state.old state.new result }
    ensures room { vec_capacity state.new.operands ≡ vec_capacity state.old.operands }
{
    let Some((x, y)) = take_two(&mut state.operands) else {
        return Step::Unable;
    };
    if y <= 0 {
        return Step::Traps {
            kind: Trap::NoDivisor,
            number: 0,
        };
    }
    push(state, x.rem_euclid(y))
}

/// Neg: the operand with the other sign. Trap 8 where that is outside the integer type of so many bytes.
pub fn neg(state: &mut State, bytes: i32) -> Step
    requires room { 257 ≤ vec_capacity state.old.operands }
    requires few { vec_len state.old.operands ≤ 256 }
    ensures does { Does (λ ops w. on_width bytes (λ n. on_one ops (λ v rest. in_type n (neg_ℤ v) rest w))) state.old state.new result }
    ensures keeps { Keeps state.old state.new result }
    ensures room { vec_capacity state.new.operands ≡ vec_capacity state.old.operands }
{
    let Some(v) = take(&mut state.operands) else {
        return Step::Unable;
    };
    push_in_type(state, bytes, negated(v))
}

/// Abs: the operand without its sign. Trap 8 where that is outside the integer type of so many bytes.
pub fn abs(state: &mut State, bytes: i32) -> Step
    requires room { 257 ≤ vec_capacity state.old.operands }
    requires few { vec_len state.old.operands ≤ 256 }
    ensures does { Does (λ ops w. on_width bytes (λ n. on_one ops (λ v rest. in_type n (magnitude v) rest w))) state.old state.new result }
    ensures keeps { Keeps state.old state.new result }
    ensures room { vec_capacity state.new.operands ≡ vec_capacity state.old.operands }
{
    let Some(v) = take(&mut state.operands) else {
        return Step::Unable;
    };
    push_in_type(state, bytes, i64::from(v.unsigned_abs()))
}

/// Eq to Ge: 1 where the comparison holds of the two operands, else 0.
pub fn compare(state: &mut State, comparison: Comparison) -> Step
    requires room { 257 ≤ vec_capacity state.old.operands }
    requires few { vec_len state.old.operands ≤ 256 }
    ensures does { Does (λ ops w. compared (holds_of comparison) ops w) state.old state.new result }
    ensures keeps { Keeps state.old state.new result }
    ensures room { vec_capacity state.new.operands ≡ vec_capacity state.old.operands }
{
    let Some((x, y)) = take_two(&mut state.operands) else {
        return Step::Unable;
    };
    push(state, i32::from(comparison.holds(x, y)))
}

/// Not: 1 where the operand is 0, else 0.
pub fn not(state: &mut State) -> Step
    requires room { 257 ≤ vec_capacity state.old.operands }
    requires few { vec_len state.old.operands ≤ 256 }
    ensures does { Does (λ ops w. on_one ops (λ v rest. Next (truth (is_zero v) ∷ rest) w)) state.old state.new result }
    ensures keeps { Keeps state.old state.new result }
    ensures room { vec_capacity state.new.operands ≡ vec_capacity state.old.operands }
{
    let Some(v) = take(&mut state.operands) else {
        return Step::Unable;
    };
    push(state, i32::from(v == 0))
}

/// Range: the operand as it is. Trap 8 where it is outside the integer type of so many bytes.
pub fn range(state: &mut State, bytes: i32) -> Step
    requires room { 257 ≤ vec_capacity state.old.operands }
    requires few { vec_len state.old.operands ≤ 256 }
    ensures does { Does (λ ops w. on_width bytes (λ n. on_one ops (λ v rest. in_type n v rest w))) state.old state.new result }
    ensures keeps { Keeps state.old state.new result }
    ensures room { vec_capacity state.new.operands ≡ vec_capacity state.old.operands }
{
    let Some(v) = take(&mut state.operands) else {
        return Step::Unable;
    };
    push_in_type(state, bytes, i64::from(v))
}

/// Chr: the operand as it is. Trap 8 where it is not from 0 to 255.
pub fn character(state: &mut State) -> Step
    requires room { 257 ≤ vec_capacity state.old.operands }
    requires few { vec_len state.old.operands ≤ 256 }
    ensures does { Does (λ ops w. on_one ops (λ v rest. if is_within v (pos 256) then Next (v ∷ rest) w else Traps trap.Overflow (pos 0) w)) state.old state.new result }
    ensures keeps { Keeps state.old state.new result }
    ensures room { vec_capacity state.new.operands ≡ vec_capacity state.old.operands }
{
    let Some(v) = take(&mut state.operands) else {
        return Step::Unable;
    };
    if !is_within(v, 256) {
        return Step::Traps {
            kind: Trap::Overflow,
            number: 0,
        };
    }
    push(state, v)
}

/// Odd: 1 where the operand is odd, else 0.
pub fn odd(state: &mut State) -> Step
    requires room { 257 ≤ vec_capacity state.old.operands }
    requires few { vec_len state.old.operands ≤ 256 }
    ensures does { Does (λ ops w. on_one ops (λ v rest. Next (int_rem_euclid v (pos 2) ∷ rest) w)) state.old state.new result }
    ensures keeps { Keeps state.old state.new result }
    ensures room { vec_capacity state.new.operands ≡ vec_capacity state.old.operands }
{
    let Some(v) = take(&mut state.operands) else {
        return Step::Unable;
    };
    push(state, v.rem_euclid(2))
}

/// Cap: the operand with a letter from a to z as one from A to Z.
pub fn cap(state: &mut State) -> Step
    requires room { 257 ≤ vec_capacity state.old.operands }
    requires few { vec_len state.old.operands ≤ 256 }
    ensures does { Does (λ ops w. on_one ops (λ v rest. Next (capital v ∷ rest) w)) state.old state.new result }
    ensures keeps { Keeps state.old state.new result }
    ensures room { vec_capacity state.new.operands ≡ vec_capacity state.old.operands }
{
    let Some(v) = take(&mut state.operands) else {
        return Step::Unable;
    };
    push(state, capital(v))
}
