//! Descriptions, symbol files and object files that stand in a text: each is read and written again, and what that comes to
//! is printed.

mod again;

use again::Answer;
use std::alloc::Global;
use std::fs;

/// Prints what each file and description of the text comes to.
pub fn print_all(rt: &HostRuntime) -> anyhow::Result<()> {
    let text = fs::read_to_string(rt, "files.txt")?;
    let mut printed = String::new(rt.alloc());
    for line in text.lines() {
        let mut parts = Vec::new(rt.alloc());
        for part in line.split(" | ") {
            parts.push(part)?;
        }
        tell(rt.alloc(), &mut printed, parts.as_slice())?;
    }
    rt.print(&printed)?;
    Ok(())
}

// Answers a line of the text: its kind, and its parts.
fn tell(alloc: Global, printed: &mut String, parts: &[&str]) -> anyhow::Result<()> {
    match parts {
        [] | [""] => Ok(()),
        [head] => put(printed, head, "\n"),
        ["description", shape] => {
            let answer = again::description(alloc, shape, None)?;
            put_answer(printed, shape, answer)
        }
        ["record", shape, layout] => {
            let answer = again::description(alloc, shape, Some(layout))?;
            put(printed, shape, " and ")?;
            put_answer(printed, layout, answer)
        }
        ["symbols", name, digits] => {
            let bytes = hex::decode(alloc, digits)?;
            let answer = again::symbols(alloc, &bytes)?;
            put_answer(printed, name, answer)
        }
        ["object", name, digits] => {
            let bytes = hex::decode(alloc, digits)?;
            let answer = again::object(alloc, &bytes)?;
            put_answer(printed, name, answer)
        }
        _ => anyhow::bail!("no line of this kind"),
    }
}

fn put(printed: &mut String, text: &str, behind: &str) -> anyhow::Result<()> {
    printed.push_str(text)?;
    printed.push_str(behind)?;
    Ok(())
}

fn put_answer(printed: &mut String, of: &str, answer: Answer) -> anyhow::Result<()> {
    put(printed, of, ": ")?;
    put(printed, answer.said(), "\n")
}
