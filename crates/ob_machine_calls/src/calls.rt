//! The calls that are under way.

ghost use Rattle.std.specs.Prelude.{◌≡◌, ◌+◌, ◌-◌, ◌≤◌, ◌<◌, [], ◌∷◌, ◌++◌, length, take, drop, vec_len, vec_capacity, IfOk, IfSome, IfNone};
ghost use Rattle.ob_machine_calls.specs.Waiting.{waiting_at};

use crate::arguments::behind;
use std::alloc::{AllocError, Global};
use std::marker::Model;

/// Where the machine stands in a call.
#[derive(Clone, Copy, PartialEq, Eq, Drop)]
pub struct Place {
    /// The number of the module.
    pub unit: u32,
    /// The number of the procedure in it.
    pub procedure: u32,
    /// The address of the call's first word.
    pub first: u32,
    /// The index of the next instruction.
    pub next: u32,
}

#[derive(Clone, Copy, Drop)]
struct Waiting {
    place: Place,
    // how many operands it has
    operands: u32,
}

/// The calls that wait for another, at most 4,095, with their operands.
#[derive(Drop)]
pub struct Calls {
    waiting: Vec<Waiting>,
    // of all of them, those of the oldest first
    operands: Vec<i32>,
}

impl Model for Calls {
    ghost use Rattle.std.specs.Prelude.{List, reverse};
    ghost use Rattle.ob_instr.specs.Image.{Act};

    ghost Value = { List Act };

    ghost use Rattle.ob_machine_calls.specs.Kept.{acts_of, IsKept};

    ghost view = { λ c. acts_of (reverse c.waiting.items) (reverse c.operands.items) };

    ghost invariant = { λ c. IsKept c };
}

// Moves all operands behind others, where there is room for them.
#[inline(always)]
fn move_all(from: &mut Vec<i32>, to: &mut Vec<i32>)
    requires { vec_len to.old + vec_len from.old ≤ vec_capacity to.old }
    ensures items { to.new.items ≡ to.old.items ++ from.old.items }
    ensures none { from.new.items ≡ [] }
    ensures capacity { vec_capacity from.new ≡ vec_capacity from.old }
    ensures room { vec_capacity to.old ≤ vec_capacity to.new }
{
    match from.len() {
        0 => {}
        1 => to.push_reserved(from.take_last()),
        _ => {
            let _ = to.append(from);
        }
    }
}

// Moves the last operands, so many, to where none are and room for them is.
#[inline(always)]
fn move_last(from: &mut Vec<i32>, count: usize, to: &mut Vec<i32>)
    requires there { count ≤ vec_len from.old }
    requires empty { to.old.items ≡ [] }
    requires room { count ≤ vec_capacity to.old }
    ensures items { to.new.items ≡ drop (vec_len from.old - count) from.old.items }
    ensures rest { from.new.items ≡ take (vec_len from.old - count) from.old.items }
    ensures capacity { vec_capacity from.new ≡ vec_capacity from.old }
    ensures room { vec_capacity to.old ≤ vec_capacity to.new }
{
    match count {
        0 => {}
        1 => to.push_reserved(from.take_last()),
        _ => {
            let start = from.len() - count;
            let _ = to.extend_from_slice(behind(from, start));
            from.truncate(start);
        }
    }
}

impl Calls {
    /// No calls, and memory for 4,096, each with 256 operands.
    pub fn new(alloc: Global) -> Result<Calls, AllocError>
        ensures { IfOk result (λ c. c ≡ []) }
    {
        let waiting = Vec::with_capacity(alloc, 4096)?;
        let operands = Vec::with_capacity(alloc, 1_048_576)?;
        Ok(Calls { waiting, operands })
    }

    /// How many calls wait.
    pub fn len(&self) -> u32
        ensures len { result ≡ length self.now }
        ensures most { result ≤ 4095 }
    {
        self.waiting.len() as u32
    }

    /// Forgets all calls.
    pub fn clear(&mut self)
        ensures { self.new ≡ [] }
    {
        self.waiting.clear();
        self.operands.clear();
    }

    /// One call more waits, with these operands, which are then none. Takes no memory.
    #[inline(always)]
    pub fn push(&mut self, place: Place, operands: &mut Vec<i32>)
        requires room { length self.old < 4095 }
        requires few { vec_len operands.old ≤ 256 }
        requires some { 0 < place.first }
        ensures calls { self.new ≡ waiting_at place operands.old.items ∷ self.old }
        ensures operands { operands.new.items ≡ [] }
        ensures capacity { vec_capacity operands.new ≡ vec_capacity operands.old }
    {
        let count = operands.len() as u32;
        move_all(operands, &mut self.operands);
        self.waiting.push_reserved(Waiting {
            place,
            operands: count,
        });
    }

    /// Takes the newest call that waits, with its operands. `None` where none waits, and then nothing is
    /// changed. Takes no memory.
    #[inline(always)]
    pub fn pop(&mut self, operands: &mut Vec<i32>) -> Option<Place>
        requires empty { operands.old.items ≡ [] }
        requires room { 256 ≤ vec_capacity operands.old }
        ensures some { IfSome result (λ p. self.old ≡ waiting_at p operands.new.items ∷ self.new) }
        ensures first { IfSome result (λ p. 0 < p.first) }
        ensures none { IfNone result ((self.old ≡ []) × (self.new ≡ self.old) × (operands.new.items ≡ [])) }
        ensures few { vec_len operands.new ≤ 256 }
        ensures capacity { vec_capacity operands.old ≤ vec_capacity operands.new }
    {
        let Some(waiting) = self.waiting.pop() else {
            return None;
        };
        move_last(&mut self.operands, waiting.operands as usize, operands);
        Some(waiting.place)
    }
}
