//! Lines of a script that comes by pieces.

ghost use Rattle.std.specs.Prelude.{◌≡◌, ◌≤◌, ◌<◌, ◌++◌, ◌+◌, true, [], ℕ, IfOk, length, Err};
ghost use Rattle.ob_shell_input.specs.Reading.{Fills, NextCause, NextDoes, Takes, TakesFirst, TakesMore};

use crate::next::{Next, NextFault};
use ob_io::Source;
use std::alloc::{AllocError, Global};
use std::marker::Model;

/// The most bytes of a script.
const MOST: u32 = 1_048_576;

/// The most bytes of a line.
const LONGEST: usize = 1024;

/// The bytes that are read at once.
const PIECE: usize = 4096;

/// Bytes of a script that were read, and of which no line was made yet.
#[derive(Drop)]
pub struct Input {
    buffer: Vec<u8>,
    at: usize,
    end: usize,
}

impl Model for Input {
    ghost use Rattle.std.specs.Prelude.{List, ℕ, ◌≤◌, ◌<◌, ◌-◌, take, drop, length};

    ghost Value = { List ℕ };

    ghost view = { λ i. take (i.end - i.at) (drop i.at i.buffer.items) };

    ghost invariant = { λ i. (i.at ≤ i.end) × (i.end ≤ length i.buffer.items) × (0 < length i.buffer.items) };
}

impl Input {
    /// Nothing was read.
    pub fn new(alloc: Global) -> Result<Input, AllocError>
        ensures { IfOk result (λ i. i ≡ []) }
    {
        let buffer = vec![in alloc; 0u8; PIECE]?;
        Ok(Input {
            buffer,
            at: 0,
            end: 0,
        })
    }

    // Reads the next piece.
    fn fill<I: Source>(&mut self, script: &mut I) -> Result<(), NextFault>
        requires { self.old ≡ [] }
        ensures fills { I.tells script.old ≡ true → Fills (I.left script.old) (I.left script.new) self.new result }
        ensures empty { result ≡ Err NextFault.Failed → self.new ≡ [] }
        ensures told { I.tells script.new ≡ I.tells script.old }
        ensures cause { NextCause (I.faults script.old) (I.faults script.new) result }
    {
        self.at = 0;
        self.end = 0;
        match script.read(&mut self.buffer) {
            Ok(count) => {
                self.end = count;
                Ok(())
            }
            Err(_) => Err(NextFault::Failed),
        }
    }

    // Takes the first byte.
    fn take(&mut self) -> Option<u8>
        ensures { TakesFirst self.old self.new result }
    {
        if self.at == self.end {
            return None;
        }
        let byte = self.buffer[self.at];
        self.at += 1;
        Some(byte)
    }

    /// Takes the next byte of a script; None at its end.
    pub fn next<I: Source>(&mut self, script: &mut I) -> Result<Option<u8>, NextFault>
        ensures takes { I.tells script.old ≡ true → Takes (self.old ++ I.left script.old) (self.new ++ I.left script.new) result }
        ensures empty { result ≡ Err NextFault.Failed → self.new ≡ [] }
        ensures told { I.tells script.new ≡ I.tells script.old }
        ensures cause { NextCause (I.faults script.old) (I.faults script.new) result }
    {
        if let Some(byte) = self.take() {
            return Ok(Some(byte));
        }
        self.fill(script)?;
        Ok(self.take())
    }
}

/// Takes the next line of a script, of which so many bytes were taken before, without its byte 10.
///
/// `Passes` comes as soon as the line is known to pass a limit: 1,024 bytes of a line, or
/// 1,048,576 of the script, its byte 10 among them.
pub fn next_line<I: Source>(
    input: &mut Input,
    taken: u32,
    line: &mut Vec<u8>,
    script: &mut I,
) -> Result<Next, NextFault>
    requires { taken ≤ 1048576 }
    ensures does { I.tells script.old ≡ true → (whole : ℕ) → taken + length (input.old ++ I.left script.old) ≡ whole → NextDoes whole taken (input.old ++ I.left script.old) (input.new ++ I.left script.new) line.new.items result }
    ensures empty { result ≡ Err NextFault.Failed → input.new ≡ [] }
    ensures more { IfOk result (TakesMore taken) }
    ensures told { I.tells script.new ≡ I.tells script.old }
    ensures cause { NextCause (I.faults script.old) (I.faults script.new) result }
{
    line.clear();
    let mut count = taken;
    'bytes: loop {
        let Some(byte) = input.next(script)? else {
            if line.is_empty() {
                return Ok(Next::End);
            }
            return Ok(Next::Last(count));
        };
        if count >= MOST {
            return Ok(Next::Passes);
        }
        count += 1;
        if byte == b'\n' {
            return Ok(Next::Line(count));
        }
        if line.len() >= LONGEST {
            return Ok(Next::Passes);
        }
        if line.push(byte).is_err() {
            return Err(NextFault::Memory);
        }
    }
}
