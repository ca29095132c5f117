//! Makes sources, scans and parses them, and prints counts.
//!
//! With no words: sources of 16 KiB, doubled up to 1 MiB, once each. With the words `make`, `scan`
//! or `parse`, a size in bytes and a number of turns: a source of that size, and so many turns of
//! that work alone, so that it can be timed from outside.

ghost use Rattle.std.specs.Prelude.{◌+◌, ◌<◌, ◌^◌, length};

use ob_parse_text::parse_text;
use ob_scan::{ScanFault, Scanner};
use ob_tree::Symbol;
use std::alloc::{AllocError, Global};

/// One of the sources' procedures.
const PROCEDURE: &str = "PROCEDURE Step*(VAR a: ARRAY OF LONGINT; n: LONGINT): LONGINT;
  VAR i, sum: LONGINT; (* of the elements *)
BEGIN
  i := 0; sum := 0;
  WHILE i < n DO
    a[i] := a[i] + n * (i - 3) DIV 2;
    IF a[i] = 7 THEN INC(sum, a[i]) ELSIF (a[i] > 9) & ~odd THEN DEC(sum, 2) ELSE sum := -sum END;
    CASE i MOD 4 OF 0, 2: Out.Char('x') | 1: Out.String(\"one\") ELSE Out.Ln END;
    INC(i)
  END;
  RETURN sum
END Step;
";

/// The largest source.
const LARGEST: usize = 1_048_576;

/// A module of at least so many bytes, and not many more.
fn source(alloc: Global, size: usize) -> Result<String, AllocError> {
    let mut text = String::new(alloc);
    text.push_str("MODULE Bench; IMPORT Out; VAR odd: BOOLEAN;\n")?;
    for _ in 0..LARGEST {
        if text.len() >= size {
            break;
        }
        text.push_str(PROCEDURE)?;
    }
    text.push_str("END Bench.\n")?;
    Ok(text)
}

/// How many tokens a text has.
fn count_tokens(text: &[u8]) -> Result<usize, ScanFault>
    requires { length text.now + 1 < 2 ^ 32 }
{
    let mut scanner = Scanner::new(text);
    let mut count = 0;
    'more: loop {
        let token = scanner.next()?;
        if token.symbol == Symbol::End {
            return Ok(count);
        }
        count += 1;
    }
}

/// How many declarations a module has, or none where the text is no module.
fn count_declarations(alloc: Global, text: &[u8]) -> Option<usize>
    requires { length text.now + 1 < 2 ^ 32 }
{
    match parse_text(alloc, text) {
        Ok(tree) => Some(tree.decls.len()),
        Err(_) => None,
    }
}

/// The work that is timed from outside.
#[derive(Clone, Copy, Drop)]
enum Work {
    Make,
    Scan,
    Parse,
}

/// So many turns of this work over a text, or none where it is no module. The last byte of the
/// text, an end of line, is left out at every second turn, so that no turn is the same as the one
/// before. What is given is the last count.
fn turns_of(alloc: Global, work: Work, text: &str, turns: u32) -> Option<usize> {
    let all = text.as_bytes();
    if all.len() >= 1_000_000_000 {
        return None;
    }
    let mut count = 0;
    for turn in 0..turns {
        let bytes = if turn % 2 == 1 && !all.is_empty() {
            &all[..all.len() - 1]
        } else {
            all
        };
        match work {
            Work::Make => count = bytes.len(),
            Work::Scan => match count_tokens(bytes) {
                Ok(tokens) => count = tokens,
                Err(_) => return None,
            },
            Work::Parse => match count_declarations(alloc, bytes) {
                Some(declarations) => count = declarations,
                None => return None,
            },
        }
    }
    Some(count)
}

// What is found of sources of growing sizes.
fn print_small(rt: &HostRuntime) -> anyhow::Result<()> {
    let alloc = rt.alloc();
    for size in [16_384, 32_768, 65_536, 131_072, 262_144, 524_288, LARGEST] {
        let text = source(alloc, size)?;
        let bytes = text.len();
        let Some(tokens) = turns_of(alloc, Work::Scan, &text, 1) else {
            anyhow::bail!("no tokens");
        };
        let Some(declarations) = turns_of(alloc, Work::Parse, &text, 1) else {
            anyhow::bail!("no module");
        };
        println!(rt; "{bytes} bytes, {tokens} tokens, {declarations} declarations")?;
    }
    Ok(())
}

/// Does what the words say, and prints counts.
pub fn print(rt: &HostRuntime, words: &[String]) -> anyhow::Result<()> {
    match words {
        [] => print_small(rt),
        [work, size, turns] => {
            let work = match work.as_str() {
                "make" => Work::Make,
                "scan" => Work::Scan,
                "parse" => Work::Parse,
                _ => anyhow::bail!("the word is make, scan or parse"),
            };
            let size: usize = size.parse()?;
            let turns: u32 = turns.parse()?;
            let text = source(rt.alloc(), size)?;
            let bytes = text.len();
            let Some(count) = turns_of(rt.alloc(), work, &text, turns) else {
                anyhow::bail!("no module");
            };
            println!(rt; "{bytes} {count}")?;
            Ok(())
        }
        _ => anyhow::bail!("three words are wanted: a work, a size and a number of turns"),
    }
}
