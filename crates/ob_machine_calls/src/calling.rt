//! A call of a procedure that is known.

ghost use Rattle.std.specs.Prelude.{◌≡◌, ◌+◌, ◌≤◌, ◌<◌, ◌^◌, length, take, drop, reverse, suc, nat_le, nat_lt, ◌&&◌, vec_len, vec_capacity, Some, IfSome};
ghost use Rattle.std.specs.Option.{option_copied};
ghost use Rattle.ob_instr.specs.Parts.{slots, most_words};
ghost use Rattle.ob_instr.specs.Rows.{copy_words, calls, procedure_of, entered};
ghost use Rattle.ob_machine_calls.specs.Reached.{Comes};

use crate::arguments::{behind, copies_of};
use crate::calls::{Calls, Place};
use crate::entering::enter_words;
use ob_machine_image::{Callable, Image};
use ob_machine_operands::State;
use ob_mem::Memory;
use ob_trap::Trap;
use ob_tree::ProcRef;

/// What a call or a return came to.
#[derive(Clone, Copy, PartialEq, Eq, Drop)]
pub enum Called {
    /// The machine goes on at the place.
    Goes,
    /// The run is over.
    Done,
    /// A trap, which tells no number beside its own.
    Traps(Trap),
    /// No turn was left.
    Spends,
    /// The instruction cannot be executed.
    Unable,
}

/// A procedure of a machine.
pub fn procedure_of(image: &Image, r: ProcRef) -> Option<&Callable>
    ensures found { option_copied result ≡ procedure_of image.now r }
    ensures words { IfSome result (λ q. slots q.now.params + q.now.locals ≤ most_words) }
{
    let unit = image.module(r.module)?;
    unit.procedures.get(r.proc as usize)
}

// Whether a call of so many words has room, where so many calls wait.
#[inline(always)]
fn has_room(stack: u32, need: u64, waiting: u32) -> bool
    requires { need < 2 ^ 62 }
    ensures { result ≡ (nat_le (stack + need) 1310721 && nat_lt (suc waiting) 4096) }
{
    u64::from(stack) + need <= 1_310_721 && waiting < 4095
}

/// Calls a procedure with the operands from one on, as many as it has slots, while those below another
/// one wait.
#[inline(always)]
pub fn call(
    image: &Image,
    here: &mut Place,
    waiting: &mut Calls,
    state: &mut State,
    r: ProcRef,
    q: &Callable,
    from: usize,
    below: usize,
) -> Called
    requires found { procedure_of image.now r ≡ Some q.now }
    requires words { slots q.now.params + q.now.locals ≤ most_words }
    requires from { from + slots q.now.params ≡ vec_len state.old.operands }
    requires below { below ≤ from }
    requires few { vec_len state.old.operands ≤ 256 }
    requires first { 0 < here.old.first }
    requires next { here.old.next < 262144 }
    requires stack { 0 < state.old.stack }
    ensures comes { Comes image.now (calls image.now r (drop from state.old.operands.items) (reverse (take below state.old.operands.items))) here.old here.new waiting.old waiting.new state.old state.new result }
    ensures few { vec_len state.new.operands ≤ 256 }
    ensures capacity { vec_capacity state.new.operands ≡ vec_capacity state.old.operands }
    ensures first { 0 < here.new.first }
    ensures stack { 0 < state.new.stack }
{
    let _ = image.count();
    let args = behind(&state.operands, from);
    let Some(copies) = copies_of(&state.words, q, args) else {
        return Called::Unable;
    };
    if state.turns == 0 {
        return Called::Spends;
    }
    let need = args.len() as u64 + u64::from(q.locals()) + copies;
    state.turns -= 1;
    if !has_room(state.stack, need, waiting.len()) {
        return Called::Traps(Trap::StackFull);
    }
    enter_call(
        &mut state.words,
        &state.operands,
        from,
        state.stack,
        q,
        copies as u32,
    );
    state.operands.truncate(below);
    let place = Place {
        unit: here.unit,
        procedure: here.procedure,
        first: here.first,
        next: here.next + 1,
    };
    waiting.push(place, &mut state.operands);
    here.unit = r.module;
    here.procedure = r.proc;
    here.first = state.stack;
    here.next = q.entry();
    state.stack += need as u32;
    Called::Goes
}

#[inline(always)]
fn enter_call(
    words: &mut Memory,
    operands: &[i32],
    from: usize,
    first: u32,
    q: &Callable,
    copies: u32,
)
    requires from { from ≤ length operands.now }
    requires some { 0 < first }
    requires slots { slots q.now.params ≡ length (drop from operands.now) }
    requires copies { copy_words (length words.old.words) q.now.params (drop from operands.now) ≡ Some copies }
    requires room { first + (slots q.now.params + q.now.locals + copies) ≤ 1310721 }
    ensures { words.new ≡ record words.old { words = entered words.old.words first q.now (drop from operands.now) } }
{
    enter_words(words, first, q, behind(operands, from), copies);
}
