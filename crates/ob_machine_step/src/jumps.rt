//! Jumps and traps.

ghost use Rattle.std.specs.Prelude.{◌≡◌, ◌≤◌, ◌∷◌, pos, vec_len, vec_capacity, if◌then◌else◌};
ghost use Rattle.ob_instr.specs.Rows.{Next, Traps, on_one, on_found, below, is_zero, jumped};
ghost use Rattle.ob_machine_operands.specs.Effects.{Does, Keeps, Moves};
ghost use Rattle.ob_trap.specs.declared.trap.Trap.TheVariants as trap;
ghost use Rattle.ob_trap.specs.Numbers.{trap_of};

use ob_machine_operands::{State, Step, take};
use ob_trap::Trap;

/// A number from 0 up to a bound.
pub fn below(bound: usize, number: i32) -> Option<u32>
    ensures { result ≡ below bound number }
{
    if number < 0 {
        return None;
    }
    let number = number as u32;
    if (number as usize) < bound {
        Some(number)
    } else {
        None
    }
}

fn jump_to(state: &mut State, pc: u32, at: u32) -> Step
    ensures does { Does (λ ops w. jumped pc at ops w) state.old state.new result }
    ensures moves { Moves pc state.old state.new result }
    ensures room { vec_capacity state.new.operands ≡ vec_capacity state.old.operands }
{
    if at <= pc {
        if state.turns == 0 {
            return Step::Spends;
        }
        state.turns -= 1;
    }
    Step::Jumps(at)
}

pub fn jump(state: &mut State, pc: u32, len: usize, a: i32) -> Step
    ensures does { Does (λ ops w. on_found (below len a) (λ at. jumped pc at ops w)) state.old state.new result }
    ensures moves { Moves pc state.old state.new result }
    ensures room { vec_capacity state.new.operands ≡ vec_capacity state.old.operands }
{
    match below(len, a) {
        Some(at) => jump_to(state, pc, at),
        None => Step::Unable,
    }
}

pub fn jump_at_false(state: &mut State, pc: u32, len: usize, a: i32) -> Step
    ensures does { Does (λ ops w. on_found (below len a) (λ at. on_one ops (λ v rest. if is_zero v then jumped pc at rest w else Next rest w))) state.old state.new result }
    ensures moves { Moves pc state.old state.new result }
    ensures room { vec_capacity state.new.operands ≡ vec_capacity state.old.operands }
{
    let Some(at) = below(len, a) else {
        return Step::Unable;
    };
    let Some(word) = take(&mut state.operands) else {
        return Step::Unable;
    };
    if word == 0 {
        return jump_to(state, pc, at);
    }
    Step::Goes
}

pub fn trap(state: &mut State, a: i32, b: i32) -> Step
    ensures does { Does (λ ops w. on_found (trap_of a) (λ kind. Traps kind b w)) state.old state.new result }
    ensures keeps { Keeps state.old state.new result }
    ensures room { vec_capacity state.new.operands ≡ vec_capacity state.old.operands }
{
    match Trap::of_number(a) {
        Some(kind) => Step::Traps { kind, number: b },
        None => Step::Unable,
    }
}

pub fn assert_true(state: &mut State, a: i32) -> Step
    ensures does { Does (λ ops w. on_one ops (λ v rest. if is_zero v then Traps trap.AssertionFails a w else Next rest w)) state.old state.new result }
    ensures keeps { Keeps state.old state.new result }
    ensures room { vec_capacity state.new.operands ≡ vec_capacity state.old.operands }
{
    let Some(word) = take(&mut state.operands) else {
        return Step::Unable;
    };
    if word == 0 {
        return Step::Traps {
            kind: Trap::AssertionFails,
            number: a,
        };
    }
    Step::Goes
}
