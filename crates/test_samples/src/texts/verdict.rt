//! What a text is found to be.

ghost use Rattle.std.specs.Prelude.{◌≡◌, ◌<◌, length, false};

use ob_parse::parse;
use ob_parse_grammar::ParseFault;
use ob_parse_text::{TextFault, parse_text};
use ob_scan::{ScanFault, scan};
use ob_tree::Pos;
use std::alloc::Global;

/// A module, or none, with the first fault and its place.
#[derive(Clone, Copy, PartialEq, Eq, Drop)]
pub enum Verdict {
    Module,
    Symbol(Pos),
    Real(Pos),
    Long(Pos),
    Syntax(Pos),
    TooDeep(Pos),
}

impl Verdict {
    /// The verdict in words.
    pub fn said(self, alloc: Global) -> anyhow::Result<String> {
        let (what, at) = match self {
            Verdict::Module => return Ok(String::from_str(alloc, " -> a module")?),
            Verdict::Symbol(at) => ("symbol", at),
            Verdict::Real(at) => ("real", at),
            Verdict::Long(at) => ("long name", at),
            Verdict::Syntax(at) => ("syntax", at),
            Verdict::TooDeep(at) => ("too deep", at),
        };
        let Pos { line, col } = at;
        Ok(format!(in alloc; " -> {what} at {line}:{col}")?)
    }
}

fn of_scanning(fault: ScanFault) -> anyhow::Result<Verdict> {
    match fault {
        ScanFault::Symbol { pos } => Ok(Verdict::Symbol(pos)),
        ScanFault::Real { pos } => Ok(Verdict::Real(pos)),
        ScanFault::Limit { pos } => Ok(Verdict::Long(pos)),
        ScanFault::Memory => anyhow::bail!("no memory"),
    }
}

fn of_parsing(fault: ParseFault) -> anyhow::Result<Verdict> {
    match fault {
        ParseFault::Syntax { pos } => Ok(Verdict::Syntax(pos)),
        ParseFault::TooDeep { pos } => Ok(Verdict::TooDeep(pos)),
        ParseFault::Memory => anyhow::bail!("no memory"),
    }
}

fn is_long(bytes: &[u8]) -> bool
    ensures { result ≡ false → length bytes.now < 1000000000 }
{
    bytes.len() >= 1_000_000_000
}

/// Of a text.
pub fn of(alloc: Global, bytes: &[u8]) -> anyhow::Result<Verdict> {
    if is_long(bytes) {
        anyhow::bail!("too long");
    }
    match parse_text(alloc, bytes) {
        Ok(_) => Ok(Verdict::Module),
        Err(TextFault::Scan(fault)) => of_scanning(fault),
        Err(TextFault::Parse(fault)) => of_parsing(fault),
        Err(TextFault::Memory) => anyhow::bail!("no memory"),
    }
}

/// The same by way of the list of the text's tokens.
pub fn by_list(alloc: Global, bytes: &[u8]) -> anyhow::Result<Verdict> {
    if is_long(bytes) {
        anyhow::bail!("too long");
    }
    match scan(alloc, bytes) {
        Ok(tokens) => match parse(alloc, tokens.as_slice()) {
            Ok(_) => Ok(Verdict::Module),
            Err(fault) => of_parsing(fault),
        },
        Err(fault) => of_scanning(fault),
    }
}
