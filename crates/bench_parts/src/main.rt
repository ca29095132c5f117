//! Programs that are timed from outside. The first word says which: `parse` for scanning and parsing, `sym` for
//! reading a symbol file, `run` for codes on the machine; it is given the words behind. With no words each does
//! its work at a small size.
#![tactic(auto)]

mod parse;
mod run;
mod sym;

use std::env;

fn main(rt: HostRuntime) -> anyhow::Result<()> {
    let mut words = Vec::new(rt.alloc());
    for word in env::args(&rt)?.skip(1) {
        words.push(word)?;
    }
    match words.as_slice() {
        [] => {
            parse::print(&rt, &[])?;
            sym::print(&rt, &[])?;
            run::print(&rt, &[])
        }
        [part, rest @ ..] => match part.as_str() {
            "parse" => parse::print(&rt, rest),
            "sym" => sym::print(&rt, rest),
            "run" => run::print(&rt, rest),
            _ => anyhow::bail!("the first word is parse, sym or run"),
        },
    }
}
