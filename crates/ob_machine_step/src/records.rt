//! The instruction that copies a record.

ghost use Rattle.std.specs.Prelude.{◌≡◌, ◌≤◌, ◌∷◌, pos, is_some, vec_len, vec_capacity, if◌then◌else◌};
ghost use Rattle.std.specs.Ordering.{int_eq};
ghost use Rattle.ob_mem.specs.Words.{copied};
ghost use Rattle.ob_instr.specs.Rows.{Next, Traps, on_three, on_found, on_count, item, tag, with_memory};
ghost use Rattle.ob_machine_operands.specs.Effects.{Does, Keeps};
ghost use Rattle.ob_trap.specs.declared.trap.Trap.TheVariants as trap;

use crate::memory::copy_words;
use crate::types::item_of;
use ob_machine_operands::{State, Step, take_three};
use ob_mem::Memory;
use ob_trap::Trap;

// Whether so many words can be copied.
fn can_copy(words: &Memory, to: i32, from: i32, count: u32) -> bool
    ensures { result ≡ is_some (copied words.now.words to from count) }
{
    words.is_there(i64::from(to), count as usize) && words.is_there(i64::from(from), count as usize)
}

// Copies a record where the target has the tag of a type.
fn copy_exact(state: &mut State, t: u32, to: i32, found: i32, from: i32, count: u32) -> Step
    ensures does { Does (λ ops w. on_found (copied w.words to from count) (λ l. if int_eq found (tag t) then Next ops (with_memory w l) else Traps trap.OtherType (pos 0) w)) state.old state.new result }
    ensures keeps { Keeps state.old state.new result }
    ensures room { vec_capacity state.new.operands ≡ vec_capacity state.old.operands }
{
    if i64::from(found) == i64::from(t) + 1 {
        return copy_words(state, to, from, count);
    }
    if !can_copy(&state.words, to, from, count) {
        return Step::Unable;
    }
    Step::Traps {
        kind: Trap::OtherType,
        number: 0,
    }
}

pub fn copy_record(state: &mut State, types: &[u32], a: i32, b: i32) -> Step
    ensures does { Does (λ ops w. on_count a (λ n. on_found (item types.now b) (λ t. on_three ops (λ d g s rest. on_found (copied w.words d s n) (λ l. if int_eq g (tag t) then Next rest (with_memory w l) else Traps trap.OtherType (pos 0) w))))) state.old state.new result }
    ensures keeps { Keeps state.old state.new result }
    ensures room { vec_capacity state.new.operands ≡ vec_capacity state.old.operands }
{
    if a < 0 {
        return Step::Unable;
    }
    let Some(t) = item_of(types, b) else {
        return Step::Unable;
    };
    let Some((to, found, from)) = take_three(&mut state.operands) else {
        return Step::Unable;
    };
    copy_exact(state, t, to, found, from, a as u32)
}
