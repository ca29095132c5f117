//! Sessions in which one call of the outside fails.

use crate::files::Files;
use ob_io::{Folder, MemFolder, MemSink, MemSource};
use ob_shell::session;
use std::alloc::{AllocError, Global};

/// Room for what a session writes, in bytes, and for the files that it replaces.
const ROOM: usize = 1 << 20;

/// Room for the files that a session replaces.
const NAMES: usize = 1000;

/// Whose calls fail.
#[derive(Clone, Copy, PartialEq, Eq, Drop)]
pub enum Failing {
    /// The folder's, which keeps the old file after a failed replace.
    Folder,
    /// The folder's, which keeps the new file after a failed replace.
    KeepingFolder,
    Sink,
    Script,
}

/// What a session answered: its status, and what it wrote.
#[derive(PartialEq, Eq, Drop)]
pub struct Answer {
    pub status: u8,
    pub text: String,
}

/// Does a script over a folder. The calls of the script and of the sink with these numbers fail, counted from 1.
pub fn run<F: Folder>(
    alloc: Global,
    words: &[String],
    folder: &mut F,
    script: &str,
    of_script: Vec<u64>,
    of_sink: Vec<u64>,
) -> anyhow::Result<Answer> {
    let mut source = MemSource::new(script.as_bytes().to_vec(alloc)?, of_script);
    let mut sink = MemSink::new(alloc, ROOM, of_sink)?;
    let status = session(alloc, words, folder, &mut source, &mut sink);
    let text = String::from_str(alloc, str::from_utf8(sink.bytes())?)?;
    Ok(Answer { status, text })
}

// What a session did: its answer, the folder behind it, and how many files were put there before it.
#[derive(Drop)]
struct Done {
    answer: Answer,
    folder: MemFolder,
    before: usize,
}

impl Done {
    // A file that the session put, by its number, from 0.
    fn change(&self, number: usize) -> Option<(&[u8], &[u8])> {
        self.folder.file_at(self.before.saturating_add(number))
    }

    // How many files the session put.
    fn count(&self) -> usize {
        for number in 0..usize::MAX {
            if self.change(number).is_none() {
                return number;
            }
        }
        usize::MAX
    }
}

// The number of the call that fails, for one of the objects of the outside; with 0 none does.
fn listed(alloc: Global, is_this: bool, call: u64) -> Result<Vec<u64>, AllocError> {
    let mut fails = Vec::new(alloc);
    if is_this && call > 0 {
        fails.push(call)?;
    }
    Ok(fails)
}

// A folder in memory with these files, of which the call with this number behind them fails.
fn folder_of(
    alloc: Global,
    files: &Files,
    failing: Failing,
    call: u64,
) -> anyhow::Result<MemFolder> {
    let number = if call > 0 {
        call.saturating_add(files.len() as u64)
    } else {
        0
    };
    let mut folder = match failing {
        Failing::KeepingFolder => MemFolder::keeping(alloc, listed(alloc, true, number)?),
        _ => MemFolder::new(alloc, listed(alloc, failing == Failing::Folder, number)?),
    };
    files.put_all(&mut folder, NAMES, ROOM)?;
    Ok(folder)
}

// Does a script over these files. The call with this number of what fails does so, counted from 1; with 0 none does.
fn run_failing(
    alloc: Global,
    words: &[String],
    files: &Files,
    script: &str,
    failing: Failing,
    call: u64,
) -> anyhow::Result<Done> {
    let mut folder = folder_of(alloc, files, failing, call)?;
    let of_script = listed(alloc, failing == Failing::Script, call)?;
    let of_sink = listed(alloc, failing == Failing::Sink, call)?;
    let answer = run(alloc, words, &mut folder, script, of_script, of_sink)?;
    Ok(Done {
        answer,
        folder,
        before: files.len(),
    })
}

// The lines of a text that are others than those of the whole one.
fn differing(alloc: Global, whole: &str, text: &str) -> Result<String, AllocError> {
    let mut out = String::new(alloc);
    let mut lines = whole.lines();
    for line in text.lines() {
        if lines.next() != Some(line) {
            out.push_str(line)?;
            out.push_str("\n")?;
        }
    }
    if lines.next().is_some() {
        out.push_str("and no more\n")?;
    }
    Ok(out)
}

// How far a run came: its status, its text and its changes against those of the whole run.
fn reached(alloc: Global, whole: &Done, part: &Done, counts: bool) -> Result<String, AllocError> {
    let status = part.answer.status;
    let bytes = part.answer.text.len();
    let text = match (
        whole.answer.text.starts_with(part.answer.text.as_str()),
        counts,
    ) {
        (false, _) => String::from_str(alloc, "no front of the text")?,
        (true, true) => format!(in alloc; "bytes {bytes}")?,
        (true, false) => String::from_str(alloc, "a front")?,
    };
    let count = part.count();
    if !is_front(part, whole) {
        return format!(in alloc; "status {status}, {text}, no front of the changes");
    }
    format!(in alloc; "status {status}, {text}, changes {count}")
}

// Whether the changes of a run are the first of those of another.
fn is_front(some: &Done, all: &Done) -> bool {
    (0..some.count()).all(|number| some.change(number) == all.change(number))
}

// What a run without faults writes behind a run, against the whole text.
fn afterwards(alloc: Global, whole: &Answer, again: &Answer) -> Result<String, AllocError> {
    let status = again.status;
    let lines = differing(alloc, &whole.text, &again.text)?;
    if status != whole.status {
        return format!(in alloc; "; then status {status} and\n{lines}");
    }
    if lines.is_empty() {
        return String::from_str(alloc, "; then the whole text\n");
    }
    format!(in alloc; "; then the whole text with\n{lines}")
}

// A line for calls that went alike.
fn put_calls(
    alloc: Global,
    out: &mut String,
    first: u64,
    last: u64,
    said: &str,
) -> Result<(), AllocError> {
    if first == last {
        out.push_str(&format!(in alloc; "call {first}: {said}")?)?;
    } else if first < last {
        out.push_str(&format!(in alloc; "calls {first} to {last}: {said}")?)?;
    }
    Ok(())
}

/// Does a script once for each call of what fails, which fails there, over the same files, until the script needs no
/// more calls. It tells of each the status, how much of the whole text was written and of the changes made, and what
/// the script does then without a fault.
pub fn table(
    alloc: Global,
    words: &[String],
    files: &Files,
    script: &str,
    failing: Failing,
) -> anyhow::Result<String> {
    let whole = run_failing(alloc, words, files, script, failing, 0)?;
    let mut out = String::new(alloc);
    let mut said = String::new(alloc);
    let mut then = String::new(alloc);
    let mut first = 1;
    for call in 1..u64::MAX {
        let part = run_failing(alloc, words, files, script, failing, call)?;
        let ends = part.answer == whole.answer;
        let says = reached(alloc, &whole, &part, failing != Failing::Sink)?;
        if ends || says.as_str() != said.as_str() {
            put_calls(alloc, &mut out, first, call - 1, &said)?;
            out.push_str(&then)?;
            if ends {
                return Ok(out);
            }
            let left = Files::of(alloc, &part.folder)?;
            let again = run_failing(alloc, words, &left, script, failing, 0)?;
            then = afterwards(alloc, &whole.answer, &again.answer)?;
            first = call;
            said = says;
        }
    }
    Ok(out)
}
