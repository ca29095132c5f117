//! Texts that stand several times, each with another number.

use std::alloc::{AllocError, Global};

/// The text with this number in place of each `@`, and the number before it in place of each `%`.
pub fn numbered(alloc: Global, text: &str, number: u32) -> Result<String, AllocError> {
    let this = format!(in alloc; "{number}")?;
    let before = format!(in alloc; "{}", number.saturating_sub(1))?;
    let mut out = String::new(alloc);
    for character in text.chars() {
        match character {
            '@' => out.push_str(&this)?,
            '%' => out.push_str(&before)?,
            _ => out.push(character)?,
        }
    }
    Ok(out)
}

/// The text with each line that has an `@` so many times, numbered from 1.
pub fn repeated(alloc: Global, text: &str, times: u32) -> Result<String, AllocError> {
    let mut out = String::new(alloc);
    for line in text.lines() {
        if times == 0 || !line.contains('@') {
            out.push_str(line)?;
            out.push_str("\n")?;
        } else {
            for number in 0..times {
                out.push_str(&numbered(alloc, line, number + 1)?)?;
                out.push_str("\n")?;
            }
        }
    }
    Ok(out)
}
