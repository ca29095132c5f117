//! The machine's memory: globals, stack and heap, as words.

ghost use Rattle.std.specs.Prelude.{◌≡◌, ◌+◌, ◌-◌, ◌≤◌, ◌<◌, ◌++◌, if◌then◌else◌, length, take, drop, replicate, pos, IfOk, is_some, unwrap_or, option_map, Some};
ghost use Rattle.ob_mem.specs.Words.{word_at, are_there, before, with_words, stored, copied, cleared, heap_taken};

use std::alloc::{AllocError, Global};
use std::marker::Model;

/// The words of the globals area.
pub const GLOBAL_WORDS: u32 = 262_144;

/// The words of the stack area.
pub const STACK_WORDS: u32 = 1_048_576;

/// The words of all areas, each from -2147483648 to 2147483647, and the heap's next free word.
#[derive(Drop)]
pub struct Memory {
    words: Vec<i32>,
    next: usize,
}

impl Model for Memory {
    ghost use Rattle.std.specs.Prelude.{◌+◌, ◌≤◌, vec_len};
    ghost use Rattle.ob_mem.specs.Words.{Held};

    ghost Value = { Held };

    ghost view = { λ m. record { words = m.words.items; next = m.next } };

    ghost invariant = { λ m. (1310721 ≤ vec_len m.words) × (vec_len m.words ≤ 5505024) × (1310721 ≤ m.next) × (m.next ≤ vec_len m.words + 1) };
}

// Where the words from an address on stand, if they are there.
fn place(len: usize, at: i64, count: usize) -> Option<usize>
    requires { 0 < count }
    ensures { result ≡ (if are_there len at count then Some (before at) else None) }
{
    if at < 1 {
        return None;
    }
    let start = at as usize - 1;
    if count > len || start > len - count {
        return None;
    }
    Some(start)
}

fn clear_words(words: &mut [i32], start: usize, count: usize)
    requires { start + count ≤ length words.old }
    ensures { words.new ≡ take start words.old ++ (replicate count (pos 0) ++ drop (start + count) words.old) }
{
    words[start..start + count].fill(0);
}

fn put_words(words: &mut [i32], at: i64, new: &[i32]) -> bool
    ensures answer { result ≡ are_there (length words.old) at (length new.now) }
    ensures after { words.new ≡ (if are_there (length words.old) at (length new.now) then with_words words.old at new.now else words.old) }
{
    let count = new.len();
    if count == 0 {
        return true;
    }
    let Some(start) = place(words.len(), at, count) else {
        return false;
    };
    words[start..start + count].copy_from_slice(new);
    true
}

fn copy_words(words: &mut [i32], to: i64, from: i64, count: usize) -> bool
    ensures answer { result ≡ is_some (copied words.old to from count) }
    ensures after { words.new ≡ unwrap_or (copied words.old to from count) words.old }
{
    if count == 0 {
        return true;
    }
    let Some(target) = place(words.len(), to, count) else {
        return false;
    };
    let Some(source) = place(words.len(), from, count) else {
        return false;
    };
    words.copy_within(source..source + count, target);
    true
}

impl Memory {
    /// A memory with the globals, the stack and `heap` words of heap, all 0 and all free.
    pub fn new(alloc: Global, heap: u32) -> Result<Memory, AllocError>
        requires some { 1 ≤ heap }
        requires most { heap ≤ 4194304 }
        ensures { IfOk result (λ m. m ≡ record { words = replicate (GLOBAL_WORDS + STACK_WORDS + heap) (pos 0); next = GLOBAL_WORDS + STACK_WORDS + 1 }) }
    {
        let areas = GLOBAL_WORDS as usize + STACK_WORDS as usize;
        let words = vec![in alloc; 0i32; areas + heap as usize]?;
        Ok(Memory {
            words,
            next: areas + 1,
        })
    }

    /// How many words all areas have: at least one of them is of the heap, and at most 4,194,304.
    pub fn len(&self) -> usize
        ensures len { result ≡ length self.now.words }
        ensures least { GLOBAL_WORDS + STACK_WORDS + 1 ≤ result }
        ensures most { result ≤ GLOBAL_WORDS + STACK_WORDS + 4194304 }
    {
        self.words.len()
    }

    /// The address of the heap's next free word: in the heap, or just behind it.
    pub fn next(&self) -> usize
        ensures next { result ≡ self.now.next }
        ensures least { GLOBAL_WORDS + STACK_WORDS + 1 ≤ result }
        ensures most { result ≤ length self.now.words + 1 }
    {
        self.next
    }

    /// Whether the addresses of `count` words from `at` on are all there. Of no words none has to be.
    pub fn is_there(&self, at: i64, count: usize) -> bool
        ensures { result ≡ are_there (length self.now.words) at count }
    {
        count == 0 || place(self.words.len(), at, count).is_some()
    }

    /// The word at an address; `None` exactly where the address lies outside all areas.
    pub fn load(&self, at: i64) -> Option<i32>
        ensures { result ≡ word_at self.now.words at }
    {
        if at < 1 {
            return None;
        }
        let index = at as usize - 1;
        if index < self.words.len() {
            Some(self.words[index])
        } else {
            None
        }
    }

    /// Puts a word at an address. `false` exactly where the address lies outside all areas, and then
    /// nothing is changed.
    pub fn store(&mut self, at: i64, word: i32) -> bool
        ensures answer { result ≡ is_some (stored self.old.words at word) }
        ensures after { self.new ≡ record self.old { words = unwrap_or (stored self.old.words at word) self.old.words } }
    {
        if at < 1 {
            return false;
        }
        let index = at as usize - 1;
        if index >= self.words.len() {
            return false;
        }
        self.words[index] = word;
        true
    }

    /// Puts words from an address on. `false` exactly where there are some and one of their addresses lies
    /// outside all areas, and then nothing is changed.
    pub fn put(&mut self, at: i64, new: &[i32]) -> bool
        ensures answer { result ≡ are_there (length self.old.words) at (length new.now) }
        ensures after { self.new ≡ record self.old { words = (if are_there (length self.old.words) at (length new.now) then with_words self.old.words at new.now else self.old.words) } }
    {
        put_words(&mut self.words, at, new)
    }

    /// Copies `count` words from `from` to `to`, reading all before it writes any. `false` exactly
    /// where `count` is above 0 and one of their addresses lies outside all areas, and then nothing is
    /// changed.
    pub fn copy(&mut self, to: i64, from: i64, count: u32) -> bool
        ensures answer { result ≡ is_some (copied self.old.words to from count) }
        ensures after { self.new ≡ record self.old { words = unwrap_or (copied self.old.words to from count) self.old.words } }
    {
        copy_words(&mut self.words, to, from, count as usize)
    }

    /// Sets `count` words from `at` on to 0. `false` exactly where `count` is above 0 and one of their
    /// addresses lies outside all areas, and then nothing is changed.
    pub fn clear(&mut self, at: i64, count: u32) -> bool
        ensures answer { result ≡ is_some (cleared self.old.words at count) }
        ensures after { self.new ≡ record self.old { words = unwrap_or (cleared self.old.words at count) self.old.words } }
    {
        let count = count as usize;
        if count == 0 {
            return true;
        }
        let Some(start) = place(self.words.len(), at, count) else {
            return false;
        };
        clear_words(&mut self.words, start, count);
        true
    }

    /// Takes the next `count` free words of the heap, sets them to 0 and gives the address of the
    /// first. `None` exactly where fewer words are left, and then nothing is changed.
    pub fn take_heap(&mut self, count: u32) -> Option<i64>
        ensures answer { result ≡ option_map (λ _. pos self.old.next) (heap_taken self.old count) }
        ensures after { self.new ≡ unwrap_or (heap_taken self.old count) self.old }
    {
        let count = count as usize;
        let first = self.next;
        let end = first + count;
        if end > self.words.len() + 1 {
            return None;
        }
        clear_words(&mut self.words, first - 1, count);
        self.next = end;
        Some(first as i64)
    }
}
