//! Runs small codes of a text on the machine, and prints how each ends and what it writes.

mod object;
mod runs;

use runs::{Times, row};
use std::fs;

/// Prints each code of the text with its end and what it writes.
pub fn print_all(rt: &HostRuntime) -> anyhow::Result<()> {
    let text = fs::read_to_string(rt, "codes.txt")?;
    let mut turns = 0;
    let mut times = Times::Once;
    for line in text.lines() {
        if let Some(heading) = line.strip_prefix("== ") {
            (turns, times) = section(heading)?;
            println!(rt; "{line}")?;
        } else {
            let row = row(rt.alloc(), line, turns, times)?;
            println!(rt; "{row}")?;
        }
    }
    Ok(())
}

// The turns for a run of each code of a section, and how often it is run, which stand in front of what it is about.
fn section(heading: &str) -> anyhow::Result<(u32, Times)> {
    let mut words = heading.split(' ');
    let Some(turns) = words.next() else {
        anyhow::bail!("no turns");
    };
    let times = match words.next() {
        Some("once") => Times::Once,
        Some("twice") => Times::Twice,
        _ => anyhow::bail!("neither once nor twice"),
    };
    Ok((turns.parse()?, times))
}
