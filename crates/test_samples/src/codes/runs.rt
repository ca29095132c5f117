//! Runs of codes, and how they end.

ghost use Rattle.std.specs.Prelude.{◌≡◌};
ghost use Rattle.ob_machine.specs.Machine.{IsEntry};

use crate::codes::object::object_file;
use ob_io::MemSink;
use ob_machine::{Machine, Outcome};
use ob_obj::read_obj;
use ob_tree::{Pos, ProcRef};
use std::alloc::{AllocError, Global};
use test_codes::{machine_of, stands_alone};

/// How often a code is run, one run after the other on the same machine.
#[derive(Clone, Copy, PartialEq, Eq)]
pub enum Times {
    Once,
    Twice,
}

// The index of the instruction at a position: its column is one above.
fn index_of(pos: Pos) -> u32 {
    pos.col.saturating_sub(1)
}

fn text_of(alloc: Global, outcome: Outcome) -> Result<String, AllocError> {
    match outcome {
        Outcome::Done => String::from_str(alloc, "done"),
        Outcome::Trap {
            kind,
            number,
            pos,
            ..
        } => {
            let kind = kind.number();
            let at = index_of(pos);
            format!(in alloc; "trap {kind} {number} {at}")
        }
        Outcome::TurnsSpent { pos, .. } => {
            let at = index_of(pos);
            format!(in alloc; "spent {at}")
        }
        Outcome::Illegal { at, .. } => format!(in alloc; "illegal {at}"),
        Outcome::SinkFault => String::from_str(alloc, "a fault of the sink"),
    }
}

// Runs the body, with so many turns.
fn run_body(machine: &mut Machine, turns: u32, out: &mut MemSink) -> Outcome
    requires { IsEntry machine.old.image (record { «module» = 0; proc = 0 }) }
    ensures { machine.new.image ≡ machine.old.image }
{
    let mut left = turns;
    machine.run(ProcRef { module: 0, proc: 0 }, &mut left, out)
}

// How the last run of a code ends.
fn end_of(
    alloc: Global,
    code: &str,
    turns: u32,
    times: Times,
    out: &mut MemSink,
) -> anyhow::Result<Outcome> {
    let bytes = object_file(alloc, code)?;
    let Ok(file) = read_obj(alloc, &bytes) else {
        anyhow::bail!("no object file");
    };
    if !stands_alone(&file) {
        anyhow::bail!("a file with links");
    }
    let mut machine = machine_of(alloc, 12, file)?;
    if times == Times::Twice {
        let _ = run_body(&mut machine, turns, out);
    }
    Ok(run_body(&mut machine, turns, out))
}

/// A code with its end and what all its runs wrote.
pub fn row(alloc: Global, code: &str, turns: u32, times: Times) -> anyhow::Result<String> {
    let mut out = MemSink::new(alloc, 1 << 12, Vec::new(alloc))?;
    let outcome = end_of(alloc, code, turns, times, &mut out)?;
    let end = text_of(alloc, outcome)?;
    let written = str::from_utf8(out.bytes())?.replace(alloc, "\n", "\\n")?;
    let row = format!(in alloc; "{code} | {end} | {written}")?;
    Ok(String::from_str(alloc, row.trim_end())?)
}
