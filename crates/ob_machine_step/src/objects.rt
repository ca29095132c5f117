//! Instructions that make objects.

ghost use Rattle.std.specs.Prelude.{◌≡◌, ◌≤◌, ◌<◌, ◌+◌, ◌*◌, ◌^◌, ◌∷◌, [], ℕ, pos, true, length, IfSome, slice_get, vec_len, vec_capacity};
ghost use Rattle.ob_mem.specs.Words.{are_there};
ghost use Rattle.ob_instr.specs.Rows.{Next, Traps, on_one, on_two, on_found, on_count, item, tag, made, made_many, where_there};
ghost use Rattle.ob_machine_operands.specs.Effects.{Does, Keeps};

use crate::types::item_of;
use ob_machine_operands::{State, Step, take, take_two};
use ob_tdesc::Descriptors;
use ob_trap::Trap;

#[tactic(auto, using(crate::proofs::Made::made_there))]
fn make(state: &mut State, at: i32, extra: &[i32], count: u64) -> Step
    requires there { are_there (length state.old.words.words) at 1 ≡ true }
    requires extra { length extra.now ≤ 2 }
    requires count { count ≤ 2 ^ 62 }
    ensures does { Does (λ ops w. made at extra.now count ops w) state.old state.new result }
    ensures keeps { Keeps state.old state.new result }
    ensures room { vec_capacity state.new.operands ≡ vec_capacity state.old.operands }
{
    let first = state.words.next();
    let len = state.words.len();
    let total = extra.len() as u64 + count;
    if total > (len + 1 - first) as u64 {
        return Step::Traps {
            kind: Trap::HeapFull,
            number: 0,
        };
    }
    let _ = state.words.take_heap(total as u32);
    let _ = state.words.put(first as i64, extra);
    let _ = state
        .words
        .store(i64::from(at), (first + extra.len()) as i32);
    Step::Goes
}

pub fn make_record(
    state: &mut State,
    descriptors: &Descriptors,
    count: u32,
    types: &[u32],
    a: i32,
) -> Step
    requires few { length descriptors.now.list < 2 ^ 31 }
    requires count { count ≡ length descriptors.now.list }
    ensures does { Does (λ ops w. on_found (item types.now a) (λ t. on_found (slice_get descriptors.now.list t) (λ d. on_one ops (λ x rest. where_there w x (made x (tag t ∷ []) d.words rest w))))) state.old state.new result }
    ensures keeps { Keeps state.old state.new result }
    ensures room { vec_capacity state.new.operands ≡ vec_capacity state.old.operands }
{
    let Some(t) = item_of(types, a) else {
        return Step::Unable;
    };
    if t >= count {
        return Step::Unable;
    }
    let Some(x) = take(&mut state.operands) else {
        return Step::Unable;
    };
    if !state.words.is_there(i64::from(x), 1) {
        return Step::Unable;
    }
    let words = descriptors.words(t);
    make(state, x, &[(t + 1) as i32], u64::from(words))
}

pub fn make_array(state: &mut State, a: i32) -> Step
    ensures does { Does (λ ops w. on_count a (λ n. on_one ops (λ x rest. where_there w x (made x (pos 0 ∷ []) n rest w)))) state.old state.new result }
    ensures keeps { Keeps state.old state.new result }
    ensures room { vec_capacity state.new.operands ≡ vec_capacity state.old.operands }
{
    if a < 0 {
        return Step::Unable;
    }
    let Some(x) = take(&mut state.operands) else {
        return Step::Unable;
    };
    if !state.words.is_there(i64::from(x), 1) {
        return Step::Unable;
    }
    make(state, x, &[0], a as u64)
}

pub fn make_open_array(state: &mut State, a: i32) -> Step
    ensures does { Does (λ ops w. on_count a (λ n. on_two ops (λ x l rest. where_there w x (made_many x n l rest w)))) state.old state.new result }
    ensures keeps { Keeps state.old state.new result }
    ensures room { vec_capacity state.new.operands ≡ vec_capacity state.old.operands }
{
    if a < 0 {
        return Step::Unable;
    }
    let Some((x, l)) = take_two(&mut state.operands) else {
        return Step::Unable;
    };
    if !state.words.is_there(i64::from(x), 1) {
        return Step::Unable;
    }
    if l < 1 {
        return Step::Traps {
            kind: Trap::NoLength,
            number: 0,
        };
    }
    make(state, x, &[0, l], l as u64 * a as u64)
}
