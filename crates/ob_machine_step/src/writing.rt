//! What the instructions of output ask to be written.

ghost use Rattle.std.specs.Prelude.{◌≡◌, ◌≤◌, ◌∷◌, [], ℕ, pos, vec_len, vec_capacity};
ghost use Rattle.ob_instr.specs.Rows.{Next, on_one, on_two, on_turn, printed, padded, low_byte, written, written_chars, chars_at};
ghost use Rattle.ob_machine_operands.specs.Effects.{Does, Moves};

use crate::texts::{Ending, text_ending};
use ob_machine_operands::{State, Step, take, take_two};
use ob_trap::Trap;

fn write_char(state: &mut State) -> Step
    ensures does { Does (λ ops w. on_one ops (λ c rest. on_turn w (λ v. Next rest (printed v (low_byte c ∷ []))))) state.old state.new result }
    ensures moves { (pc : ℕ) → Moves pc state.old state.new result }
    ensures room { vec_capacity state.new.operands ≡ vec_capacity state.old.operands }
{
    let Some(c) = take(&mut state.operands) else {
        return Step::Unable;
    };
    if state.turns == 0 {
        return Step::Spends;
    }
    state.turns -= 1;
    Step::Char(c)
}

fn write_text(state: &mut State) -> Step
    ensures does { Does (λ ops w. on_two ops (λ x l rest. written_chars (chars_at w.words x l) rest w)) state.old state.new result }
    ensures moves { (pc : ℕ) → Moves pc state.old state.new result }
    ensures room { vec_capacity state.new.operands ≡ vec_capacity state.old.operands }
{
    let Some((x, l)) = take_two(&mut state.operands) else {
        return Step::Unable;
    };
    let text = text_ending(&state.words, x, l);
    if text == Ending::Missing {
        return Step::Unable;
    }
    if state.turns == 0 {
        return Step::Spends;
    }
    state.turns -= 1;
    match text {
        Ending::After { start, count } => Step::Text { start, count },
        _ => Step::Traps {
            kind: Trap::NoEnd,
            number: 0,
        },
    }
}

fn write_number(state: &mut State) -> Step
    ensures does { Does (λ ops w. on_two ops (λ z n rest. on_turn w (λ v. Next rest (printed v (padded z n))))) state.old state.new result }
    ensures moves { (pc : ℕ) → Moves pc state.old state.new result }
    ensures room { vec_capacity state.new.operands ≡ vec_capacity state.old.operands }
{
    let Some((number, width)) = take_two(&mut state.operands) else {
        return Step::Unable;
    };
    if state.turns == 0 {
        return Step::Spends;
    }
    state.turns -= 1;
    Step::Number { number, width }
}

fn write_line(state: &mut State) -> Step
    ensures does { Does (λ ops w. on_turn w (λ v. Next ops (printed v (10 ∷ [])))) state.old state.new result }
    ensures moves { (pc : ℕ) → Moves pc state.old state.new result }
    ensures room { vec_capacity state.new.operands ≡ vec_capacity state.old.operands }
{
    if state.turns == 0 {
        return Step::Spends;
    }
    state.turns -= 1;
    Step::Line
}

pub fn write(state: &mut State, a: i32) -> Step
    ensures does { Does (λ ops w. written a ops w) state.old state.new result }
    ensures moves { (pc : ℕ) → Moves pc state.old state.new result }
    ensures room { vec_capacity state.new.operands ≡ vec_capacity state.old.operands }
{
    match a {
        1 => write_char(state),
        2 => write_text(state),
        3 => write_number(state),
        4 => write_line(state),
        _ => Step::Unable,
    }
}
