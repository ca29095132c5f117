//! The words of a module's globals and strings.

ghost use Rattle.std.specs.Prelude.{◌≡◌, ◌+◌, ◌-◌, ◌≤◌, ◌<◌, ◌++◌, ◌∷◌, [], length, map, replicate, pos};
ghost use Rattle.std.specs.List.{AllByRecursion};
ghost use Rattle.ob_mem.specs.Words.{with_words};
ghost use Rattle.ob_obj.specs.Grammar.{words_of};
ghost use Rattle.ob_obj.specs.Images.{global_words, string_words};
ghost use Rattle.ob_machine_image.specs.Globals.{AreWithin, words_from};

use ob_mem::Memory;
use ob_obj::{ObjFile, StringConst};

/// The last address of the globals, and one more.
pub const GLOBALS_END: u32 = 262_145;

// Sets so many words from an address on to 0.
fn clear(words: &mut Memory, at: u32, count: u32)
    requires some { 0 < at }
    requires room { at + count ≤ GLOBALS_END }
    ensures after { words.new ≡ record words.old { words = with_words words.old.words (pos at) (replicate count (pos 0)) } }
    ensures long { 1310721 ≤ length words.old.words }
{
    let _ = words.len();
    let _ = words.clear(at as i64, count);
}

fn put_word(words: &mut Memory, at: u32, word: u8)
    requires some { 0 < at }
    requires room { at < GLOBALS_END }
    ensures after { words.new ≡ record words.old { words = with_words words.old.words (pos at) (pos word ∷ []) } }
    ensures long { 1310721 ≤ length words.old.words }
{
    let _ = words.len();
    let _ = words.store(at as i64, word as i32);
}

fn put_text(words: &mut Memory, at: u32, text: &[u8])
    requires some { 0 < at }
    requires room { at + length text.now ≤ GLOBALS_END }
    ensures after { words.new ≡ record words.old { words = with_words words.old.words (pos at) (map pos text.now) } }
    ensures long { 1310721 ≤ length words.old.words }
{
    let _ = words.len();
    let mut next = at;
    let mut rest = text;
    while let [char, more @ ..] = rest {
        put_word(words, next, *char);
        next += 1;
        rest = more;
    }
}

// Puts the characters of a string at an address, and zeros behind them.
fn put_string(words: &mut Memory, at: u32, string: &StringConst)
    requires some { 0 < at }
    requires long { length string.now.text ≤ string.now.words }
    requires room { at + string.now.words ≤ GLOBALS_END }
    ensures after { words.new ≡ record words.old { words = with_words words.old.words (pos at) (map pos string.now.text ++ replicate (string.now.words - length string.now.text) (pos 0)) } }
    ensures long { 1310721 ≤ length words.old.words }
{
    let text = string.text.as_slice();
    put_text(words, at, text);
    let len = text.len() as u32;
    clear(words, at + len, string.words - len);
}

fn put_strings(words: &mut Memory, at: u32, strings: &[StringConst])
    requires some { 0 < at }
    requires long { AllByRecursion (λ s. length s.text ≤ s.words) strings.now }
    requires room { at + words_of strings.now ≤ GLOBALS_END }
    ensures { words.new ≡ record words.old { words = with_words words.old.words (pos at) (string_words strings.now) } }
{
    let mut next = at;
    let mut rest = strings;
    while let [string, more @ ..] = rest {
        put_string(words, next, string);
        next += string.words;
        rest = more;
    }
}

// Puts the globals of a file at an address: its variables, all 0, and its strings.
fn put_file(words: &mut Memory, at: u32, file: &ObjFile)
    requires some { 0 < at }
    requires long { AllByRecursion (λ s. length s.text ≤ s.words) file.now.globals.strings }
    requires room { at + global_words file.now ≤ GLOBALS_END }
    ensures { words.new ≡ record words.old { words = with_words words.old.words (pos at) (replicate file.now.globals.variable_words (pos 0) ++ string_words file.now.globals.strings) } }
{
    let count = file.globals.variable_words;
    clear(words, at, count);
    put_strings(words, at + count, file.globals.strings.as_slice());
}

/// How many words the strings have together.
fn count_words(strings: &[StringConst]) -> u32
    requires { words_of strings.now ≤ 262144 }
    ensures { result ≡ words_of strings.now }
{
    let mut words = 0;
    let mut rest = strings;
    while let [string, more @ ..] = rest {
        words += string.words;
        rest = more;
    }
    words
}

/// How many words of globals a file has.
pub fn count_globals(file: &ObjFile) -> u32
    requires { global_words file.now ≤ 262144 }
    ensures { result ≡ global_words file.now }
{
    file.globals.variable_words + count_words(file.globals.strings.as_slice())
}

/// Puts the globals of files one behind the other, from an address on.
pub fn put_files(words: &mut Memory, first: u32, files: &[ObjFile])
    requires some { 0 < first }
    requires room { AreWithin first files.now }
    ensures { words.new ≡ record words.old { words = words_from first files.now words.old.words } }
{
    let mut next = first;
    let mut rest = files;
    while let [file, more @ ..] = rest {
        put_file(words, next, file);
        next += count_globals(file);
        rest = more;
    }
}
