//! The output of the program.

ghost use Rattle.std.specs.Prelude.{◌≡◌, ◌≤◌, ◌<◌, [], false, length, is_ok, if◌then◌else◌, IfOk, OnErr, None, IsSome};
ghost use Rattle.ob_io.specs.Io.{HasCause, Rose};
ghost use Rattle.ob_io.specs.Held.{more};

use ob_io::{Failed, Sink};
use std::io::{Error, ErrorKind, Write};

/// The sink over a writer of std. It tells nothing of what it has taken. It counts the errors of the writer, of which it
/// keeps the last, and the flushes that were asked for and done. A writer that takes nothing of a piece with bytes counts
/// as one that fails.
///
/// Where it goes by lines, what is written is handed on at each byte 10, and else when the writer's buffer is full or a
/// flush is asked for.
#[derive(Drop)]
pub struct RealSink<W> {
    inner: W,
    by_lines: bool,
    flushes: u64,
    faults: u64,
    error: Option<Error>,
}

impl<W: Write> RealSink<W> {
    /// A sink over a writer, which has taken nothing yet.
    pub fn new(inner: W, by_lines: bool) -> RealSink<W>
        ensures by_lines { result.by_lines ≡ by_lines }
        ensures flushes { result.flushes ≡ 0 }
        ensures faults { result.faults ≡ 0 }
        ensures error { result.error ≡ None }
    {
        RealSink {
            inner,
            by_lines,
            flushes: 0,
            faults: 0,
            error: None,
        }
    }

    // Counts a fault.
    fn fail(&mut self, error: Error) -> Failed
        ensures later { self.old.faults ≤ self.new.faults }
        ensures rose { Rose self.old.faults self.new.faults }
        ensures said { IsSome self.new.error }
        ensures flushes { self.new.flushes ≡ self.old.flushes }
    {
        self.faults = self.faults.saturating_add(1);
        self.error = Some(error);
        Failed
    }
}

impl<W> RealSink<W> {
    /// How many flushes were done.
    pub fn flushes(&self) -> u64
        ensures { result ≡ self.now.flushes }
    {
        self.flushes
    }

    /// What the writer said when it last failed.
    pub fn error(&self) -> Option<Error>
        ensures { result ≡ self.now.error }
    {
        self.error
    }
}

impl<W: Write> Sink for RealSink<W> {
    ghost tells = { λ _. false };

    ghost taken = { λ _. [] };

    ghost faults = { λ s. s.faults };

    /// After a failed write the writer's error is kept.
    fn write(&mut self, piece: &[u8]) -> Result<usize, Failed>
        ensures bound { IfOk result (λ n. n ≤ length piece.now) }
        ensures progress { IfOk result (λ n. 0 < length piece.now → 0 < n) }
        ensures cause { HasCause self.old.faults self.new.faults result }
        ensures said { OnErr result (IsSome self.new.error) }
        ensures flushes { self.new.flushes ≡ self.old.flushes }
    {
        let count = match self.inner.write(piece) {
            Ok(count) if count > 0 || piece.is_empty() => count,
            Ok(_) => return Err(self.fail(Error::from(ErrorKind::WriteZero))),
            Err(error) => return Err(self.fail(error)),
        };
        if self.by_lines && piece.contains(&b'\n') {
            if let Err(error) = self.inner.flush() {
                return Err(self.fail(error));
            }
        }
        Ok(count)
    }

    /// After a failed flush the writer's error is kept.
    fn flush(&mut self) -> Result<(), Failed>
        ensures cause { HasCause self.old.faults self.new.faults result }
        ensures said { OnErr result (IsSome self.new.error) }
        ensures counted { self.new.flushes ≡ (if is_ok result then more self.old.flushes else self.old.flushes) }
    {
        match self.inner.flush() {
            Ok(()) => {
                self.flushes = self.flushes.saturating_add(1);
                Ok(())
            }
            Err(error) => Err(self.fail(error)),
        }
    }
}
