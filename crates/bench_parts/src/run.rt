//! Runs five codes on the machine, and prints what they write. With no words: each at a small size. With the
//! words `count`, `calls`, `sieve`, `list` or `bound` and a size: that one, so that it can be timed from outside.

ghost use Rattle.std.specs.Prelude.{IfOk};
ghost use Rattle.ob_machine.specs.Machine.{IsEntry};

mod codes;

use codes::Work;
use ob_io::MemSink;
use ob_machine::{Machine, Outcome};
use ob_obj::read_obj;
use ob_tree::ProcRef;
use std::alloc::Global;
use test_codes::{Module, assemble, machine_of, stands_alone};

/// More turns than the codes need at the sizes that are timed.
const TURNS: u32 = 1_000_000_000;

// A machine with so many words of heap and with the module of the bytes.
fn machine_with(alloc: Global, heap: u32, bytes: &[u8]) -> anyhow::Result<Machine>
    ensures { IfOk result (λ m. IsEntry m.image (record { «module» = 0; proc = 0 })) }
{
    let Ok(file) = read_obj(alloc, bytes) else {
        anyhow::bail!("no object file");
    };
    if !stands_alone(&file) {
        anyhow::bail!("the file has links");
    }
    if heap < 1 || heap > 4_194_304 {
        anyhow::bail!("the heap would be too large");
    }
    Ok(machine_of(alloc, heap, file)?)
}

// Runs the module's body with so many turns, and tells whether it came to its end.
fn run_body(machine: &mut Machine, turns: u32, out: &mut MemSink) -> bool
    requires { IsEntry machine.old.image (record { «module» = 0; proc = 0 }) }
{
    let mut left = turns;
    let outcome = machine.run(ProcRef { module: 0, proc: 0 }, &mut left, out);
    matches!(outcome, Outcome::Done)
}

// What the body of the module of the bytes writes.
fn written_by(alloc: Global, heap: u32, bytes: &[u8]) -> anyhow::Result<String> {
    let mut machine = machine_with(alloc, heap, bytes)?;
    let mut out = MemSink::new(alloc, 1000, Vec::new(alloc))?;
    if !run_body(&mut machine, TURNS, &mut out) {
        anyhow::bail!("the run did not come to its end");
    }
    let written = str::from_utf8(out.bytes())?;
    Ok(String::from_str(alloc, written.trim_end())?)
}

// What a code of a size writes.
fn result_of(alloc: Global, work: Work, size: u32) -> anyhow::Result<String> {
    let body = work.body(alloc, size)?;
    let module = Module {
        body: &body,
        words: work.words(size),
        strings: &[],
        types: work.types(),
        procedures: work.procedures(),
    };
    let bytes = assemble(alloc, &module)?;
    written_by(alloc, work.heap(size), &bytes)
}

fn small_results(alloc: Global) -> anyhow::Result<String> {
    let count = result_of(alloc, Work::Count, 1000)?;
    let calls = result_of(alloc, Work::Calls, 10)?;
    let sieve = result_of(alloc, Work::Sieve, 100)?;
    let list = result_of(alloc, Work::List, 2000)?;
    let bound = result_of(alloc, Work::Bound, 200)?;
    Ok(format!(in alloc; "{count}\n{calls}\n{sieve}\n{list}\n{bound}")?)
}

fn one_result(alloc: Global, name: &str, size: &str) -> anyhow::Result<String> {
    let Some(work) = Work::named(name) else {
        anyhow::bail!("the word is count, calls, sieve, list or bound");
    };
    let size: u32 = size.parse()?;
    result_of(alloc, work, size)
}

fn results(alloc: Global, words: &[String]) -> anyhow::Result<String> {
    match words {
        [] => small_results(alloc),
        [name, size] => one_result(alloc, name, size),
        _ => anyhow::bail!("two words are wanted: a code and a size"),
    }
}

/// Runs what the words say, and prints what it writes.
pub fn print(rt: &HostRuntime, words: &[String]) -> anyhow::Result<()> {
    let text = results(rt.alloc(), words)?;
    println!(rt; "{text}")?;
    Ok(())
}
