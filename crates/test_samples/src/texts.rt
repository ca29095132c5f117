//! Texts, each of which is scanned and parsed: what it is found to be is printed, or its tokens, or where the nodes of its
//! tree stand.

mod nodes;
mod places;
mod spelled;
mod tokens;
mod verdict;

use std::alloc::Global;
use std::fs;

/// Prints each line of the texts with what it comes to.
pub fn print_all(rt: &HostRuntime) -> anyhow::Result<()> {
    do_lines(rt, "modules.txt")?;
    do_lines(rt, "faults.txt")?;
    do_lines(rt, "levels.txt")?;
    do_lines(rt, "tokens.txt")?;
    do_lines(rt, "places.txt")
}

// Answers each line of a text.
fn do_lines(rt: &HostRuntime, name: &str) -> anyhow::Result<()> {
    let text = fs::read_to_string(rt, name)?;
    let mut printed = String::new(rt.alloc());
    for line in text.lines() {
        let answer = answer(rt.alloc(), line)?;
        for part in [line, answer.as_str(), "\n"] {
            printed.push_str(part)?;
        }
    }
    rt.print(&printed)?;
    Ok(())
}

// What is printed behind a line: nothing behind a heading.
fn answer(alloc: Global, line: &str) -> anyhow::Result<String> {
    let Some((kind, rest)) = line.split_once(' ') else {
        return Ok(String::new(alloc));
    };
    match kind {
        "text" => {
            let text = spelled::text(alloc, rest)?;
            verdict::of(alloc, &text)?.said(alloc)
        }
        "list" => {
            let text = spelled::text(alloc, rest)?;
            verdict::by_list(alloc, &text)?.said(alloc)
        }
        "repeated" => {
            let text = spelled::repeated(alloc, rest)?;
            verdict::of(alloc, &text)?.said(alloc)
        }
        "nested" => {
            let text = spelled::nested(alloc, rest)?;
            verdict::of(alloc, &text)?.said(alloc)
        }
        "tokens" => {
            let text = spelled::text(alloc, rest)?;
            tokens::of(alloc, &text)
        }
        "nodes" => {
            let text = spelled::text(alloc, rest)?;
            places::of_nodes(alloc, &text)
        }
        "statements" => {
            let text = spelled::text(alloc, rest)?;
            places::of_statements(alloc, &text)
        }
        "value" => places::of_value(alloc, rest),
        _ => Ok(String::new(alloc)),
    }
}
