//! Instructions that load and store words.

ghost use Rattle.std.specs.Int.{w32, int_bit_and, int_bit_or, int_bit_not};
ghost use Rattle.std.specs.Prelude.{◌≡◌, ◌≤◌, ◌∷◌, ◌+ℤ◌, ◌-ℤ◌, pos, vec_len, vec_capacity, if◌then◌else◌};
ghost use Rattle.ob_mem.specs.Words.{word_at, stored, copied};
ghost use Rattle.ob_instr.specs.Rows.{Next, Traps, on_one, on_two, on_found, on_count, on_width, in_width, is_zero, with_memory, on_element, set_from};
ghost use Rattle.ob_machine_operands.specs.Effects.{Does, Keeps};
ghost use Rattle.ob_trap.specs.declared.trap.Trap.TheVariants as trap;

use ob_machine_operands::{
    Fit, State, Step, difference, element, fitted, push, put, sum, take, take_two, with_element,
    without_element,
};
use ob_trap::Trap;

/// Puts a word at an address.
pub fn store_word(state: &mut State, at: i32, word: i32) -> Step
    ensures does { Does (λ ops w. on_found (stored w.words at word) (λ l. Next ops (with_memory w l))) state.old state.new result }
    ensures keeps { Keeps state.old state.new result }
    ensures room { vec_capacity state.new.operands ≡ vec_capacity state.old.operands }
{
    if !state.words.store(i64::from(at), word) {
        return Step::Unable;
    }
    Step::Goes
}

pub fn load(state: &mut State) -> Step
    requires room { 257 ≤ vec_capacity state.old.operands }
    requires few { vec_len state.old.operands ≤ 256 }
    ensures does { Does (λ ops w. on_one ops (λ x rest. on_found (word_at w.words x) (λ v. Next (v ∷ rest) w))) state.old state.new result }
    ensures keeps { Keeps state.old state.new result }
    ensures room { vec_capacity state.new.operands ≡ vec_capacity state.old.operands }
{
    let Some(x) = take(&mut state.operands) else {
        return Step::Unable;
    };
    let Some(word) = state.words.load(i64::from(x)) else {
        return Step::Unable;
    };
    push(state, word)
}

pub fn store(state: &mut State) -> Step
    ensures does { Does (λ ops w. on_two ops (λ x v rest. on_found (stored w.words x v) (λ l. Next rest (with_memory w l)))) state.old state.new result }
    ensures keeps { Keeps state.old state.new result }
    ensures room { vec_capacity state.new.operands ≡ vec_capacity state.old.operands }
{
    let Some((x, v)) = take_two(&mut state.operands) else {
        return Step::Unable;
    };
    store_word(state, x, v)
}

/// Copies words, all being read before one is written.
pub fn copy_words(state: &mut State, to: i32, from: i32, count: u32) -> Step
    ensures does { Does (λ ops w. on_found (copied w.words to from count) (λ l. Next ops (with_memory w l))) state.old state.new result }
    ensures keeps { Keeps state.old state.new result }
    ensures room { vec_capacity state.new.operands ≡ vec_capacity state.old.operands }
{
    if !state.words.copy(i64::from(to), i64::from(from), count) {
        return Step::Unable;
    }
    Step::Goes
}

pub fn copy(state: &mut State, a: i32) -> Step
    ensures does { Does (λ ops w. on_count a (λ n. on_two ops (λ d s rest. on_found (copied w.words d s n) (λ l. Next rest (with_memory w l))))) state.old state.new result }
    ensures keeps { Keeps state.old state.new result }
    ensures room { vec_capacity state.new.operands ≡ vec_capacity state.old.operands }
{
    if a < 0 {
        return Step::Unable;
    }
    let Some((d, s)) = take_two(&mut state.operands) else {
        return Step::Unable;
    };
    copy_words(state, d, s, a as u32)
}

pub fn deref(state: &mut State) -> Step
    requires room { 257 ≤ vec_capacity state.old.operands }
    requires few { vec_len state.old.operands ≤ 256 }
    ensures does { Does (λ ops w. on_one ops (λ x rest. if is_zero x then Traps trap.Nil (pos 0) w else Next (x ∷ rest) w)) state.old state.new result }
    ensures keeps { Keeps state.old state.new result }
    ensures room { vec_capacity state.new.operands ≡ vec_capacity state.old.operands }
{
    let Some(x) = take(&mut state.operands) else {
        return Step::Unable;
    };
    if x == 0 {
        return Step::Traps {
            kind: Trap::Nil,
            number: 0,
        };
    }
    push(state, x)
}

pub fn tagged(state: &mut State) -> Step
    requires room { 257 ≤ vec_capacity state.old.operands }
    requires few { vec_len state.old.operands ≤ 256 }
    ensures does { Does (λ ops w. on_one ops (λ x rest. if is_zero x then Traps trap.Nil (pos 0) w else on_found (word_at w.words (x -ℤ pos 1)) (λ g. Next (g ∷ x ∷ rest) w))) state.old state.new result }
    ensures keeps { Keeps state.old state.new result }
    ensures room { vec_capacity state.new.operands ≡ vec_capacity state.old.operands }
{
    let Some(x) = take(&mut state.operands) else {
        return Step::Unable;
    };
    if x == 0 {
        return Step::Traps {
            kind: Trap::Nil,
            number: 0,
        };
    }
    let Some(word) = state.words.load(i64::from(x) - 1) else {
        return Step::Unable;
    };
    put(&mut state.operands, x);
    push(state, word)
}

fn store_in_type(state: &mut State, bytes: i32, at: i32, number: i64) -> Step
    ensures does { Does (λ ops w. on_width bytes (λ n. if in_width n number then on_found (stored w.words at number) (λ l. Next ops (with_memory w l)) else Traps trap.Overflow (pos 0) w)) state.old state.new result }
    ensures keeps { Keeps state.old state.new result }
    ensures room { vec_capacity state.new.operands ≡ vec_capacity state.old.operands }
{
    match fitted(bytes, number) {
        Fit::Without => Step::Unable,
        Fit::Outside => Step::Traps {
            kind: Trap::Overflow,
            number: 0,
        },
        Fit::Inside(word) => store_word(state, at, word),
    }
}

pub fn inc(state: &mut State, bytes: i32) -> Step
    ensures does { Does (λ ops w. on_width bytes (λ n. on_two ops (λ x d rest. on_found (word_at w.words x) (λ v. if in_width n (v +ℤ d) then on_found (stored w.words x (v +ℤ d)) (λ l. Next rest (with_memory w l)) else Traps trap.Overflow (pos 0) w)))) state.old state.new result }
    ensures keeps { Keeps state.old state.new result }
    ensures room { vec_capacity state.new.operands ≡ vec_capacity state.old.operands }
{
    let Some((x, d)) = take_two(&mut state.operands) else {
        return Step::Unable;
    };
    let Some(word) = state.words.load(i64::from(x)) else {
        return Step::Unable;
    };
    store_in_type(state, bytes, x, sum(word, d))
}

pub fn dec(state: &mut State, bytes: i32) -> Step
    ensures does { Does (λ ops w. on_width bytes (λ n. on_two ops (λ x d rest. on_found (word_at w.words x) (λ v. if in_width n (v -ℤ d) then on_found (stored w.words x (v -ℤ d)) (λ l. Next rest (with_memory w l)) else Traps trap.Overflow (pos 0) w)))) state.old state.new result }
    ensures keeps { Keeps state.old state.new result }
    ensures room { vec_capacity state.new.operands ≡ vec_capacity state.old.operands }
{
    let Some((x, d)) = take_two(&mut state.operands) else {
        return Step::Unable;
    };
    let Some(word) = state.words.load(i64::from(x)) else {
        return Step::Unable;
    };
    store_in_type(state, bytes, x, difference(word, d))
}

pub fn include(state: &mut State) -> Step
    ensures does { Does (λ ops w. on_two ops (λ x v rest. on_found (word_at w.words x) (λ s. on_element v w (λ i. on_found (stored w.words x (int_bit_or w32 s (set_from i i))) (λ l. Next rest (with_memory w l)))))) state.old state.new result }
    ensures keeps { Keeps state.old state.new result }
    ensures room { vec_capacity state.new.operands ≡ vec_capacity state.old.operands }
{
    let Some((x, v)) = take_two(&mut state.operands) else {
        return Step::Unable;
    };
    let Some(set) = state.words.load(i64::from(x)) else {
        return Step::Unable;
    };
    let Some(i) = element(v) else {
        return Step::Traps {
            kind: Trap::NoElement,
            number: 0,
        };
    };
    store_word(state, x, with_element(set, i))
}

pub fn exclude(state: &mut State) -> Step
    ensures does { Does (λ ops w. on_two ops (λ x v rest. on_found (word_at w.words x) (λ s. on_element v w (λ i. on_found (stored w.words x (int_bit_and w32 s (int_bit_not w32 (set_from i i)))) (λ l. Next rest (with_memory w l)))))) state.old state.new result }
    ensures keeps { Keeps state.old state.new result }
    ensures room { vec_capacity state.new.operands ≡ vec_capacity state.old.operands }
{
    let Some((x, v)) = take_two(&mut state.operands) else {
        return Step::Unable;
    };
    let Some(set) = state.words.load(i64::from(x)) else {
        return Step::Unable;
    };
    let Some(i) = element(v) else {
        return Step::Traps {
            kind: Trap::NoElement,
            number: 0,
        };
    };
    store_word(state, x, without_element(set, i))
}
