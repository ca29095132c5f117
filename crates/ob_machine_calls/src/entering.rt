//! The words of a new activation.

ghost use Rattle.std.specs.Prelude.{◌≡◌, ◌+◌, ◌≤◌, ◌<◌, length, replicate, pos, Some};
ghost use Rattle.ob_mem.specs.Words.{with_words};
ghost use Rattle.ob_instr.specs.Parts.{slots};
ghost use Rattle.ob_instr.specs.Rows.{copy_words, with_copy, with_copies, entered};
ghost use Rattle.ob_machine_calls.specs.Copies.{copy_size, with_one};

use crate::arguments::{behind, copy_of};
use ob_instr::Param;
use ob_machine_image::Callable;
use ob_mem::Memory;

// Copies so many words to an address, which is then put into a slot.
fn put_copy(words: &mut Memory, slot: u32, next: u32, from: i32, count: u32)
    requires some { 0 < slot }
    requires slot { slot ≤ 1310720 }
    requires next { next ≤ 1310721 }
    ensures after { words.new ≡ record words.old { words = with_copy words.old.words slot next from count } }
    ensures same { length words.new.words ≡ length words.old.words }
{
    let _ = words.len();
    let _ = words.copy(i64::from(next), i64::from(from), count);
    let _ = words.len();
    let _ = words.store(i64::from(slot), next as i32);
}

// Makes the copy of a parameter's argument, where it has one of so many words.
fn make_copy(words: &mut Memory, param: Param, args: &[i32], slot: u32, next: u32, count: u32)
    requires some { 0 < slot }
    requires slot { slot ≤ 1310720 }
    requires next { next ≤ 1310721 }
    requires size { copy_size (length words.old.words) param args.now ≡ Some count }
    ensures after { words.new ≡ record words.old { words = with_one words.old.words param args.now slot next } }
    ensures same { length words.new.words ≡ length words.old.words }
{
    match (param, args) {
        (Param::Value(size), [from, ..]) => put_copy(words, slot, next, *from, size),
        (Param::ValueArray(_), [from, _, ..]) => put_copy(words, slot, next, *from, count),
        _ => {}
    }
}

// Makes the copies of the arguments, one behind the other, and puts their addresses into the slots.
fn make_copies(
    words: &mut Memory,
    params: &[Param],
    args: &[i32],
    slot: u32,
    next: u32,
    copies: u32,
)
    requires some { 0 < slot }
    requires slots { slot + slots params.now ≤ 1310721 }
    requires copies { copy_words (length words.old.words) params.now args.now ≡ Some copies }
    requires room { next + copies ≤ 1310721 }
    ensures { words.new ≡ record words.old { words = with_copies words.old.words params.now args.now slot next } }
{
    let mut kinds = params;
    let mut rest = args;
    let mut place = slot;
    let mut free = next;
    let mut left = copies;
    while let [param, more @ ..] = kinds {
        let Some(count) = copy_of(words, *param, rest) else {
            return;
        };
        let count = count as u32;
        let slots = param.slots();
        make_copy(words, *param, rest, place, free, count);
        rest = behind(rest, slots as usize);
        place += slots;
        free += count;
        left -= count;
        kinds = more;
    }
}

// Puts the arguments of a call into its slots.
#[inline(always)]
fn put_arguments(words: &mut Memory, first: u32, args: &[i32])
    requires some { 0 < first }
    requires room { first + length args.now ≤ 1310721 }
    ensures { words.new ≡ record words.old { words = with_words words.old.words (pos first) args.now } }
{
    let _ = words.len();
    match args {
        [] => {}
        [word] => {
            let _ = words.store(i64::from(first), *word);
        }
        [word, next] => {
            let _ = words.store(i64::from(first), *word);
            let _ = words.store(i64::from(first + 1), *next);
        }
        _ => {
            let _ = words.put(i64::from(first), args);
        }
    }
}

// Sets the locals of a call to 0.
#[inline(always)]
fn clear_locals(words: &mut Memory, at: u32, count: u32)
    requires some { 0 < at }
    requires room { at + count ≤ 1310721 }
    ensures { words.new ≡ record words.old { words = with_words words.old.words (pos at) (replicate count (pos 0)) } }
{
    let _ = words.len();
    if count > 0 {
        let _ = words.clear(i64::from(at), count);
    }
}

/// Puts the arguments of a call into its slots, clears its locals behind them, and makes the copies of
/// the arguments behind these. The call has its first word at `first`.
#[inline(always)]
pub fn enter_words(words: &mut Memory, first: u32, q: &Callable, args: &[i32], copies: u32)
    requires some { 0 < first }
    requires slots { slots q.now.params ≡ length args.now }
    requires copies { copy_words (length words.old.words) q.now.params args.now ≡ Some copies }
    requires room { first + (slots q.now.params + q.now.locals + copies) ≤ 1310721 }
    ensures { words.new ≡ record words.old { words = entered words.old.words first q.now args.now } }
{
    let _ = words.len();
    put_arguments(words, first, args);
    let locals = first + args.len() as u32;
    clear_locals(words, locals, q.locals());
    if !q.copies() {
        return;
    }
    make_copies(words, q.params(), args, first, locals + q.locals(), copies);
}
