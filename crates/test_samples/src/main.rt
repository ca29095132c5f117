//! Goes over the samples of some texts, and prints what each comes to: texts that are scanned and parsed, files that are read
//! and written again, and small codes that the machine runs.
#![tactic(auto)]

mod codes;
mod files;
mod texts;

fn main(rt: HostRuntime) -> anyhow::Result<()> {
    texts::print_all(&rt)?;
    files::print_all(&rt)?;
    codes::print_all(&rt)
}
