//! Instructions on texts in arrays of characters.

ghost use Rattle.std.specs.Prelude.{◌≡◌, ◌≤◌, ◌<◌, ◌+◌, ◌^◌, ◌++◌, ◌∷◌, [], List, ℤ, min, pos, length, take, drop, Some, slice_get, vec_len, vec_capacity};
ghost use Rattle.ob_instr.specs.Rows.{Next, Traps, on_found, on_four, on_both, below, truth, chars_at, related, placed, copies_chars, with_memory};
ghost use Rattle.ob_machine_operands.specs.Effects.{Does, Keeps};
ghost use Rattle.ob_machine_step.specs.Texts.{TextIs, TextIsFrom, IsOrder, text};

use crate::jumps::below;
use ob_machine_operands::{State, Step, push, take_four};
use ob_mem::Memory;
use ob_trap::Trap;
use std::cmp::Ordering;

/// How the text of a character array ends.
#[derive(Clone, Copy, PartialEq, Eq, Drop)]
pub enum Ending {
    /// An address up to the first 0, or up to the array's end, is not there.
    Missing,
    /// There is no 0.
    Endless,
    /// So many characters stand before the first 0, behind so many words.
    After { start: u32, count: u32 },
}

/// The word behind so many others, where there is one.
#[tactic(auto, using(crate::proofs::Endings::word_after))]
pub fn word_behind(words: &Memory, count: u64) -> Option<i32>
    requires { count < 2 ^ 62 }
    ensures { slice_get words.now.words count ≡ result }
{
    words.load(count as i64 + 1)
}

// The ending of the text behind so many words.
#[tactic(auto, using(crate::proofs::Endings::seen))]
fn ending_from(words: &Memory, start: u32, len: u32) -> Ending
    ensures { TextIsFrom words.now.words start len result }
{
    let mut count: u32 = 0;
    'chars: while count < len {
        let Some(word) = word_behind(words, u64::from(start) + u64::from(count)) else {
            return Ending::Missing;
        };
        if word == 0 {
            return Ending::After { start, count };
        }
        count += 1;
    }
    Ending::Endless
}

/// The ending of the text of a character array at an address, with its length.
pub fn text_ending(words: &Memory, at: i32, len: i32) -> Ending
    ensures { TextIs words.now.words at len result }
{
    if len <= 0 {
        return Ending::Endless;
    }
    if at <= 0 {
        return Ending::Missing;
    }
    ending_from(words, at as u32 - 1, len as u32)
}

// The order of two texts.
#[tactic(auto, using(crate::proofs::Endings::ordered))]
fn order(words: &Memory, a: u32, k: u32, b: u32, m: u32) -> Ordering
    requires a { a + k ≤ length words.now.words }
    requires b { b + m ≤ length words.now.words }
    ensures { IsOrder (text words.now.words a k) (text words.now.words b m) result }
{
    let mut i: u32 = 0;
    'chars: while i < k && i < m {
        let Some(c) = word_behind(words, u64::from(a) + u64::from(i)) else {
            return Ordering::Equal;
        };
        let Some(d) = word_behind(words, u64::from(b) + u64::from(i)) else {
            return Ordering::Equal;
        };
        if c < d {
            return Ordering::Less;
        }
        if d < c {
            return Ordering::Greater;
        }
        i += 1;
    }
    if i < m {
        return Ordering::Less;
    }
    if i < k {
        return Ordering::Greater;
    }
    Ordering::Equal
}

// The relation of a number, of texts in an order.
fn holds(relation: u32, order: Ordering) -> bool
    requires { relation < 6 }
    ensures { (s t : List ℤ) → IsOrder s t order → result ≡ related relation s t }
{
    match relation {
        0 => order == Ordering::Equal,
        1 => order != Ordering::Equal,
        2 => order == Ordering::Less,
        3 => order != Ordering::Greater,
        4 => order == Ordering::Greater,
        _ => order != Ordering::Less,
    }
}

pub fn relate(state: &mut State, a: i32) -> Step
    requires room { 257 ≤ vec_capacity state.old.operands }
    requires few { vec_len state.old.operands ≤ 256 }
    ensures does { Does (λ ops w. on_found (below 6 a) (λ r. on_four ops (λ x l y n rest. on_both (chars_at w.words x l) (chars_at w.words y n) w (λ s t. Next (truth (related r s t) ∷ rest) w)))) state.old state.new result }
    ensures keeps { Keeps state.old state.new result }
    ensures room { vec_capacity state.new.operands ≡ vec_capacity state.old.operands }
{
    let Some(relation) = below(6, a) else {
        return Step::Unable;
    };
    let Some((x, l, y, n)) = take_four(&mut state.operands) else {
        return Step::Unable;
    };
    let first = text_ending(&state.words, x, l);
    let second = text_ending(&state.words, y, n);
    match (first, second) {
        (Ending::Missing, _) | (_, Ending::Missing) => Step::Unable,
        (Ending::Endless, _) | (_, Ending::Endless) => Step::Traps {
            kind: Trap::NoEnd,
            number: 0,
        },
        (Ending::After { start: a, count: k }, Ending::After { start: b, count: m }) => {
            let order = order(&state.words, a, k, b, m);
            push(state, i32::from(holds(relation, order)))
        }
    }
}

#[tactic(auto, using(crate::proofs::Puts::placing))]
fn place_text(state: &mut State, to: i32, start: u32, count: u32) -> Step
    requires there { start + count < length state.old.words.words }
    ensures does { Does (λ ops w. on_found (placed w.words to (text w.words start count ++ pos 0 ∷ [])) (λ l. Next ops (with_memory w l))) state.old state.new result }
    ensures keeps { Keeps state.old state.new result }
    ensures room { vec_capacity state.new.operands ≡ vec_capacity state.old.operands }
{
    if !state.words.is_there(i64::from(to), count as usize + 1) {
        return Step::Unable;
    }
    let _ = state.words.copy(i64::from(to), i64::from(start) + 1, count);
    let _ = state.words.store(i64::from(to) + i64::from(count), 0);
    Step::Goes
}

pub fn copy_text(state: &mut State) -> Step
    ensures does { Does (λ ops w. on_four ops (λ x l y n rest. copies_chars (chars_at w.words x l) y n rest w)) state.old state.new result }
    ensures keeps { Keeps state.old state.new result }
    ensures room { vec_capacity state.new.operands ≡ vec_capacity state.old.operands }
{
    let Some((x, l, y, n)) = take_four(&mut state.operands) else {
        return Step::Unable;
    };
    if n < 1 {
        return Step::Unable;
    }
    match text_ending(&state.words, x, l) {
        Ending::Missing => Step::Unable,
        Ending::Endless => Step::Traps {
            kind: Trap::NoEnd,
            number: 0,
        },
        Ending::After { start, count } => place_text(state, y, start, count.min(n as u32 - 1)),
    }
}
