//! What the instructions of output write.

ghost use Rattle.std.specs.Prelude.{◌≡◌, ◌∷◌, [], true, length, replicate, take, drop};
ghost use Rattle.ob_io.specs.Io.{HasCause, WritesAll};
ghost use Rattle.ob_instr.specs.Rows.{columns, padded, low_byte, low_bytes};

use itoa::Buffer;
use ob_io::{Failed, Sink, write_all};
use ob_machine_step::word_behind;
use ob_mem::Memory;

// Writes so many blanks.
fn put_blanks<S: Sink>(out: &mut S, count: u32) -> Result<(), Failed>
    ensures told { S.tells out.new ≡ S.tells out.old }
    ensures bytes { S.tells out.old ≡ true → WritesAll (S.taken out.old) (S.taken out.new) result (replicate count 32) }
    ensures cause { HasCause (S.faults out.old) (S.faults out.new) result }
{
    for _ in 0..count {
        write_all(out, b" ")?;
    }
    Ok(())
}

// The columns that a width asks for.
fn columns(width: i32) -> u32
    ensures { result ≡ columns width }
{
    if width < 0 {
        0
    } else {
        (width as u32).min(255)
    }
}

/// Writes a number in decimal, right in its columns.
#[inline(never)]
pub fn put_padded<S: Sink>(out: &mut S, number: i32, width: i32) -> Result<(), Failed>
    ensures told { S.tells out.new ≡ S.tells out.old }
    ensures bytes { S.tells out.old ≡ true → WritesAll (S.taken out.old) (S.taken out.new) result (padded number width) }
    ensures cause { HasCause (S.faults out.old) (S.faults out.new) result }
{
    let mut buffer = Buffer::new();
    let digits = buffer.format(number).as_bytes();
    put_blanks(out, columns(width).saturating_sub(digits.len() as u32))?;
    write_all(out, digits)
}

// The low eight bits of a word.
fn low_byte(word: i32) -> u8
    ensures { result ≡ low_byte word }
{
    word.rem_euclid(256) as u8
}

/// Writes the low eight bits of a word.
#[inline(never)]
pub fn put_char<S: Sink>(out: &mut S, word: i32) -> Result<(), Failed>
    ensures told { S.tells out.new ≡ S.tells out.old }
    ensures bytes { S.tells out.old ≡ true → WritesAll (S.taken out.old) (S.taken out.new) result (low_byte word ∷ []) }
    ensures cause { HasCause (S.faults out.old) (S.faults out.new) result }
{
    write_all(out, &[low_byte(word)])
}

/// Writes the low eight bits of `count` words that stand behind `start` others, as far as there are so
/// many.
#[inline(never)]
#[tactic(auto, using(crate::proofs::Chars::chars))]
pub fn put_text<S: Sink>(out: &mut S, words: &Memory, start: u32, count: u32) -> Result<(), Failed>
    ensures told { S.tells out.new ≡ S.tells out.old }
    ensures bytes { S.tells out.old ≡ true → WritesAll (S.taken out.old) (S.taken out.new) result (low_bytes (take count (drop start words.now.words))) }
    ensures cause { HasCause (S.faults out.old) (S.faults out.new) result }
{
    let mut i: u32 = 0;
    'chars: while i < count {
        let Some(word) = word_behind(words, u64::from(start) + u64::from(i)) else {
            return Ok(());
        };
        put_char(out, word)?;
        i += 1;
    }
    Ok(())
}
