//! The script of the program.

ghost use Rattle.std.specs.Prelude.{◌≡◌, ◌≤◌, [], false, nat_lt, length, IfOk, OnErr, None, IsSome};
ghost use Rattle.ob_io.specs.Io.{HasCause};

use ob_io::{Failed, Source};
use std::io::{Error, Read};

/// The source over a reader of std. It tells nothing of what is left. It counts the errors of the reader, of which it
/// keeps the last, and the bytes that it gave.
///
/// No read goes across the mark: more bytes than that are given only to one who has asked again with all of the bytes
/// before the mark in hand.
#[derive(Drop)]
pub struct RealSource<R> {
    inner: R,
    mark: usize,
    given: usize,
    faults: u64,
    error: Option<Error>,
}

impl<R: Read> RealSource<R> {
    /// A source over a reader, which has given nothing yet.
    pub fn new(inner: R, mark: usize) -> RealSource<R>
        ensures mark { result.mark ≡ mark }
        ensures given { result.given ≡ 0 }
        ensures faults { result.faults ≡ 0 }
        ensures error { result.error ≡ None }
    {
        RealSource {
            inner,
            mark,
            given: 0,
            faults: 0,
            error: None,
        }
    }
}

impl<R> RealSource<R> {
    /// Whether a byte was given.
    pub fn has_given(&self) -> bool
        ensures { result ≡ nat_lt 0 self.now.given }
    {
        self.given > 0
    }

    /// Whether a byte behind the mark was given.
    pub fn is_past_mark(&self) -> bool
        ensures { result ≡ nat_lt self.now.mark self.now.given }
    {
        self.given > self.mark
    }

    /// What the reader said when it last failed.
    pub fn error(&self) -> Option<Error>
        ensures { result ≡ self.now.error }
    {
        self.error
    }
}

// How many bytes may be asked for at once.
fn most(asked: usize, given: usize, mark: usize) -> usize
    ensures bound { result ≤ asked }
{
    if given < mark {
        asked.min(mark - given)
    } else {
        asked
    }
}

impl<R: Read> Source for RealSource<R> {
    ghost tells = { λ _. false };

    ghost left = { λ _. [] };

    ghost faults = { λ s. s.faults };

    /// After a failed read the reader's error is kept.
    fn read(&mut self, buf: &mut [u8]) -> Result<usize, Failed>
        ensures bound { IfOk result (λ n. n ≤ length buf.new) }
        ensures cause { HasCause self.old.faults self.new.faults result }
        ensures said { OnErr result (IsSome self.new.error) }
    {
        let most = most(buf.len(), self.given, self.mark);
        match self.inner.read(&mut buf[..most]) {
            Ok(count) => {
                self.given = self.given.saturating_add(count);
                Ok(count)
            }
            Err(error) => {
                self.faults = self.faults.saturating_add(1);
                self.error = Some(error);
                Err(Failed)
            }
        }
    }
}
