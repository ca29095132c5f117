//! Does the cases of some texts, each over files in memory, and prints what each session wrote, its
//! status, and what is asked of the files: `cases.txt` has worked examples, `rules.txt` broken
//! rules, `refusals.txt` refusals with their causes, `faults.txt` calls that fail, and
//! `listings.txt` modules whose object files are listed, and `makes.txt` lines `make`.
#![tactic(auto)]

mod cases;
mod faults;
mod files;
mod listing;
mod numbered;

use cases::Case;
use std::alloc::Global;
use std::fs;

fn main(rt: HostRuntime) -> anyhow::Result<()> {
    do_text(&rt, "cases.txt")?;
    do_text(&rt, "rules.txt")?;
    do_text(&rt, "refusals.txt")?;
    do_text(&rt, "faults.txt")?;
    do_text(&rt, "listings.txt")?;
    do_text(&rt, "makes.txt")
}

// Does the cases of a text.
fn do_text(rt: &HostRuntime, name: &str) -> anyhow::Result<()> {
    let text = fs::read_to_string(rt, name)?;
    let mut case = Case::new(rt.alloc());
    let told = tell_all(rt.alloc(), &mut case, &text);
    rt.print(case.printed())?;
    told
}

// Does each section of a text in turn.
fn tell_all(alloc: Global, case: &mut Case, text: &str) -> anyhow::Result<()> {
    let mut head = String::new(alloc);
    let mut body = String::new(alloc);
    for line in text.lines() {
        if let Some(section) = line.strip_prefix("== ") {
            case.tell(&head, &body)?;
            head = String::from_str(alloc, section)?;
            body = String::new(alloc);
        } else {
            body.push_str(line)?;
            body.push_str("\n")?;
        }
    }
    case.tell(&head, &body)
}
