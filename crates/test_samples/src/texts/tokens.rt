//! The tokens of a text.

use ob_scan::scan;
use ob_tree::Pos;
use std::alloc::Global;

/// Each token: its symbol, its place, and its text.
pub fn of(alloc: Global, bytes: &[u8]) -> anyhow::Result<String> {
    if bytes.len() >= 1_000_000 {
        anyhow::bail!("too long");
    }
    let Ok(tokens) = scan(alloc, bytes) else {
        anyhow::bail!("no tokens");
    };
    let mut said = String::new(alloc);
    for token in tokens.as_slice() {
        let symbol = token.symbol;
        let Pos { line, col } = token.pos;
        let text = str::from_utf8(token.text)?;
        said.push_str(&format!(in alloc; "\n  {line}:{col} {symbol:?}")?)?;
        if !text.is_empty() {
            said.push_str(" ")?;
            said.push_str(text)?;
        }
    }
    Ok(said)
}
