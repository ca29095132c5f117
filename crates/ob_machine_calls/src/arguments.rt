//! Arrays that a call passes by value, copied.

ghost use Rattle.std.specs.Prelude.{◌≡◌, ◌+◌, ◌≤◌, length, drop, IfSome};
ghost use Rattle.ob_instr.specs.Parts.{slots, slots_of};
ghost use Rattle.ob_instr.specs.Rows.{copy_words};
ghost use Rattle.ob_machine_calls.specs.Copies.{array_size, copy_size};

use ob_instr::Param;
use ob_machine_image::Callable;
use ob_mem::Memory;

/// The words behind so many.
pub fn behind(words: &[i32], count: usize) -> &[i32]
    requires { count ≤ length words.now }
    ensures { result.now ≡ drop count words.now }
{
    &words[count..]
}

// How many words the copy of an array of so many elements has, where they are there.
fn array_words(words: &Memory, from: i32, len: i32, size: u32) -> Option<u64>
    ensures { result ≡ array_size (length words.now.words) from len size }
{
    if len < 0 {
        return None;
    }
    let count = len as u64 * u64::from(size);
    if !words.is_there(i64::from(from), count as usize) {
        return None;
    }
    Some(count)
}

/// How many words the copy of a parameter's argument has, the first of the arguments. `None` where its
/// words are not among the arguments, its length is below 0, or its words are not there.
pub fn copy_of(words: &Memory, param: Param, args: &[i32]) -> Option<u64>
    ensures size { result ≡ copy_size (length words.now.words) param args.now }
    ensures there { IfSome result (λ n. slots_of param ≤ length args.now) }
    ensures few { IfSome result (λ n. n ≤ 5505024) }
{
    let _ = words.len();
    match (param, args) {
        (Param::Scalar | Param::Var, [_, ..]) => Some(0),
        (Param::VarRecord | Param::VarArray, [_, _, ..]) => Some(0),
        (Param::Value(size), [from, ..]) => {
            if !words.is_there(i64::from(*from), size as usize) {
                return None;
            }
            Some(u64::from(size))
        }
        (Param::ValueArray(size), [from, len, ..]) => array_words(words, *from, *len, size),
        _ => None,
    }
}

/// How many words the copies of the arguments take. `None` where the arguments' words differ from the
/// kinds, a length is below 0, or the words of an argument are not there. Takes no memory.
pub fn count_copies(words: &Memory, params: &[Param], args: &[i32]) -> Option<u64>
    requires { length args.now ≤ 256 }
    ensures count { result ≡ copy_words (length words.now.words) params.now args.now }
    ensures few { IfSome result (λ n. n ≤ 1409286144) }
    ensures slots { IfSome result (λ n. slots params.now ≡ length args.now) }
{
    let mut total = 0;
    let mut kinds = params;
    let mut rest = args;
    while let [param, more @ ..] = kinds {
        let Some(count) = copy_of(words, *param, rest) else {
            return None;
        };
        total += count;
        rest = behind(rest, param.slots() as usize);
        kinds = more;
    }
    if !rest.is_empty() {
        return None;
    }
    Some(total)
}

/// How many words the copies of a call's arguments take, of which there are as many words as slots.
/// `None` where a length is below 0, or the words of an argument are not there. Takes no memory.
#[inline(always)]
pub fn copies_of(words: &Memory, q: &Callable, args: &[i32]) -> Option<u64>
    requires few { length args.now ≤ 256 }
    requires slots { slots q.now.params ≡ length args.now }
    ensures count { result ≡ copy_words (length words.now.words) q.now.params args.now }
    ensures few { IfSome result (λ n. n ≤ 1409286144) }
{
    if !q.copies() {
        return Some(0);
    }
    count_copies(words, q.params(), args)
}
