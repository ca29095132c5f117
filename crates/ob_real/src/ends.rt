//! Where a session was cut short, and why.

ghost use Rattle.std.specs.Prelude.{◌≡◌, ◌&&◌, nat_le, nat_lt, is_some, Some, if◌then◌else◌};
ghost use Rattle.ob_io.specs.Held.{more};

use crate::{Lost, RealFolder, RealSink, RealSource};
use std::fmt;
use std::io::Error;

/// Why a line of a script was not done.
#[derive(Drop)]
pub enum Why<'a> {
    /// The script could not be read.
    Script(Option<Error>),
    /// The output could not be written.
    Output(Option<Error>),
    /// There was no memory.
    Memory,
    /// A file failed.
    File(Option<&'a Lost>),
    /// The line has too many bytes.
    LongLine,
    /// The script has too many bytes.
    LongScript,
}

/// Where a session was cut short, and why. Its text is what the program says on standard error.
#[derive(Drop)]
pub enum CutShort<'a> {
    /// Before the first line, where there was no memory.
    Start,
    /// In the line with this number.
    Line(u64, Why<'a>),
}

impl fmt::Display for Why<'_> {
    fn fmt<W: fmt::Write>(&self, f: &mut fmt::Formatter<W>) -> fmt::Result {
        match self {
            Why::Script(Some(error)) => write!(f, "standard input could not be read: {error}"),
            Why::Script(None) => f.write_str("standard input could not be read"),
            Why::Output(Some(error)) => write!(f, "standard output could not be written: {error}"),
            Why::Output(None) => f.write_str("standard output could not be written"),
            Why::Memory => f.write_str("there is not enough memory"),
            Why::File(Some(lost)) => write!(f, "{lost}"),
            Why::File(None) => f.write_str("a file failed"),
            Why::LongLine => f.write_str("the line has more than 1,024 bytes"),
            Why::LongScript => f.write_str("the script has more than 1,048,576 bytes"),
        }
    }
}

impl fmt::Display for CutShort<'_> {
    fn fmt<W: fmt::Write>(&self, f: &mut fmt::Formatter<W>) -> fmt::Result {
        match self {
            CutShort::Start => f.write_str("there is not enough memory to begin"),
            CutShort::Line(line, why) => write!(f, "line {line}: {why}"),
        }
    }
}

/// Where a session with this status was cut short, and why; None at a status that says no such thing.
///
/// The session flushes the output once behind each line that it did, so it was cut short in the next one. It reads on
/// when it has made lines of all bytes that it was given, so the source's mark, set at the most bytes of a script, tells
/// a script that is too long from a line that is.
pub fn cut_short<'a, R, W, F>(
    status: u8,
    script: &RealSource<R>,
    out: &RealSink<W>,
    folder: &'a RealFolder<F>,
) -> Option<CutShort<'a>>
    ensures cut { is_some result ≡ (nat_le 3 status && nat_le status 7) }
    ensures script { status ≡ 3 → result ≡ Some (CutShort.Line (more out.now.flushes) (Why.Script script.now.error)) }
    ensures output { status ≡ 4 → result ≡ Some (CutShort.Line (more out.now.flushes) (Why.Output out.now.error)) }
    ensures memory { status ≡ 5 → result ≡ Some (if nat_lt 0 script.now.given then CutShort.Line (more out.now.flushes) Why.Memory else CutShort.Start) }
    ensures limit { status ≡ 7 → result ≡ Some (CutShort.Line (more out.now.flushes) (if nat_lt script.now.mark script.now.given then Why.LongScript else Why.LongLine)) }
{
    let why = match status {
        3 => Why::Script(script.error()),
        4 => Why::Output(out.error()),
        5 if !script.has_given() => return Some(CutShort::Start),
        5 => Why::Memory,
        6 => Why::File(folder.lost()),
        7 if script.is_past_mark() => Why::LongScript,
        7 => Why::LongLine,
        _ => return None,
    };
    Some(CutShort::Line(out.flushes().saturating_add(1), why))
}
