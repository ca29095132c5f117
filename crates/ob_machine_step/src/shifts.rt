//! The instruction that shifts.

ghost use Rattle.std.specs.Prelude.{◌≡◌, ◌≤◌, ◌<◌, ◌^◌, ◌*ℤ◌, pos, Some, None, vec_len, vec_capacity, if◌then◌else◌};
ghost use Rattle.std.specs.Int.{int_div_euclid};
ghost use Rattle.ob_instr.specs.Rows.{on_two, in_type, in_width, shifted};
ghost use Rattle.ob_machine_operands.specs.Effects.{Does, Keeps};

use ob_machine_operands::{State, Step, power, push, take_two, word_of};
use ob_trap::Trap;

// A word times a power of 2 below 2 to the 32.
#[tactic(auto, using(crate::proofs::Powers::scaled_fits))]
fn scaled(word: i32, exponent: u32) -> i64
    requires { exponent < 32 }
    ensures { result ≡ word *ℤ pos (2 ^ exponent) }
{
    i64::from(word) * power(exponent) as i64
}

// A word times a power of 2, where that is a word.
#[tactic(auto, using(crate::proofs::Powers::ups))]
fn shifted_up(word: i32, exponent: u32) -> Option<i32>
    ensures { result ≡ (if in_width 4 (word *ℤ pos (2 ^ exponent)) then Some (word *ℤ pos (2 ^ exponent)) else None) }
{
    if word == 0 {
        return Some(0);
    }
    if exponent >= 32 {
        return None;
    }
    word_of(scaled(word, exponent))
}

// A word divided by a power of 2, rounded down.
#[tactic(auto, using(crate::proofs::Powers::downs))]
fn shifted_down(word: i32, exponent: u32) -> i32
    ensures { result ≡ int_div_euclid word (pos (2 ^ exponent)) }
{
    if exponent >= 31 {
        return if word < 0 { -1 } else { 0 };
    }
    word.div_euclid(power(exponent) as i32)
}

// A word shifted, where that is a word.
fn shift(word: i32, places: i32) -> Option<i32>
    ensures { result ≡ (if in_width 4 (shifted word places) then Some (shifted word places) else None) }
{
    if places >= 0 {
        shifted_up(word, places as u32)
    } else {
        Some(shifted_down(word, places.unsigned_abs()))
    }
}

pub fn ash(state: &mut State) -> Step
    requires room { 257 ≤ vec_capacity state.old.operands }
    requires few { vec_len state.old.operands ≤ 256 }
    ensures does { Does (λ ops w. on_two ops (λ x n rest. in_type 4 (shifted x n) rest w)) state.old state.new result }
    ensures keeps { Keeps state.old state.new result }
    ensures room { vec_capacity state.new.operands ≡ vec_capacity state.old.operands }
{
    let Some((x, n)) = take_two(&mut state.operands) else {
        return Step::Unable;
    };
    match shift(x, n) {
        Some(value) => push(state, value),
        None => Step::Traps {
            kind: Trap::Overflow,
            number: 0,
        },
    }
}
