//! The program: it does the lines of a script from standard input, over the files of the folder that it runs in.
#![tactic(auto)]

use ob_real::{CutShort, RealFolder, RealSink, RealSource, cut_short};
use ob_shell::session;
use std::io::{BufWriter, ErrorKind, IsTerminal};
use std::process::ExitCode;
use std::{env, io, process};

/// The line on standard error where the words are refused.
const USAGE: &str = "usage: oberon [--turns N] [--heap N]";

/// The most bytes of a script.
const MOST: usize = 1_048_576;

// Says where and why the session was cut short. Where that cannot be written, the status alone says it.
fn say(rt: &impl Eprint, end: &CutShort<'_>) {
    let _ = rt.eprintln(format_args!("oberon: {end}"));
}

// Ends a program that had no memory to begin.
fn no_start(rt: &impl Eprint) -> io::Result<ExitCode> {
    say(rt, &CutShort::Start);
    Ok(ExitCode::from(5))
}

fn main(rt: HostRuntime) -> io::Result<ExitCode> {
    let alloc = rt.alloc();
    let args = match env::args(&rt) {
        Ok(args) => args,
        Err(fault) if fault.kind() == ErrorKind::OutOfMemory => return no_start(&rt),
        // A word that is no text is no word that is accepted.
        Err(_) => {
            let _ = rt.eprintln(USAGE);
            return Ok(ExitCode::from(2));
        }
    };
    let mut words = Vec::new(alloc);
    for word in args.skip(1) {
        if words.push(word).is_err() {
            return no_start(&rt);
        }
    }
    let Ok(writer) = BufWriter::new(alloc, io::writer(&rt)) else {
        return no_start(&rt);
    };
    let Ok(mut folder) = RealFolder::new(alloc, &rt, process::id(rt.process())) else {
        return no_start(&rt);
    };
    let mut script = RealSource::new(rt.reader(), MOST);
    let mut out = RealSink::new(writer, rt.stdout().is_terminal());
    let status = session(alloc, &words, &mut folder, &mut script, &mut out);
    if status == 2 {
        let _ = rt.eprintln(USAGE);
    }
    if let Some(end) = cut_short(status, &script, &out, &folder) {
        // What the output still holds back stands before what is said.
        drop(out);
        say(&rt, &end);
    }
    Ok(ExitCode::from(status))
}
