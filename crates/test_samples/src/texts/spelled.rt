//! Texts as a line spells them: `\n` is the end of a line, `\x` and two hexadecimal digits a byte, and `@@` parts pieces.

use std::alloc::Global;

/// The bytes that a line spells.
pub fn text(alloc: Global, line: &str) -> anyhow::Result<Vec<u8>> {
    let mut bytes = Vec::new(alloc);
    put(&mut bytes, line)?;
    Ok(bytes)
}

fn put(bytes: &mut Vec<u8>, line: &str) -> anyhow::Result<()> {
    let mut pieces = line.split('\\');
    if let Some(first) = pieces.next() {
        bytes.extend_from_slice(first.as_bytes())?;
    }
    for piece in pieces {
        put_escaped(bytes, piece.as_bytes())?;
    }
    Ok(())
}

// What stands behind a backslash.
fn put_escaped(bytes: &mut Vec<u8>, piece: &[u8]) -> anyhow::Result<()> {
    match piece {
        [b'n', rest @ ..] => {
            bytes.push(b'\n')?;
            bytes.extend_from_slice(rest)?;
            Ok(())
        }
        [b'x', high, low, rest @ ..] => {
            bytes.push(digit(*high)? << 4 | digit(*low)?)?;
            bytes.extend_from_slice(rest)?;
            Ok(())
        }
        _ => anyhow::bail!("no escape"),
    }
}

fn digit(digit: u8) -> anyhow::Result<u8> {
    match digit {
        b'0'..=b'9' => Ok(digit - b'0'),
        b'a'..=b'f' => Ok(digit - b'a' + 10),
        _ => anyhow::bail!("no digit"),
    }
}

fn pieces(alloc: Global, line: &str) -> anyhow::Result<Vec<&str>> {
    let mut all = Vec::new(alloc);
    for piece in line.split("@@") {
        all.push(piece)?;
    }
    Ok(all)
}

fn put_times(bytes: &mut Vec<u8>, count: u32, piece: &str) -> anyhow::Result<()> {
    for _ in 0..count {
        put(bytes, piece)?;
    }
    Ok(())
}

/// A front, so many times a middle, and an end: the count, the front, the middle and the end are the line's pieces.
pub fn repeated(alloc: Global, line: &str) -> anyhow::Result<Vec<u8>> {
    let pieces = pieces(alloc, line)?;
    let [count, front, middle, end] = pieces.as_slice() else {
        anyhow::bail!("not four pieces");
    };
    let mut bytes = text(alloc, front)?;
    put_times(&mut bytes, count.parse()?, middle)?;
    put(&mut bytes, end)?;
    Ok(bytes)
}

/// A front, so many times an opening, a middle, as often a closing, and an end, which with the count are the line's pieces.
pub fn nested(alloc: Global, line: &str) -> anyhow::Result<Vec<u8>> {
    let pieces = pieces(alloc, line)?;
    let [count, front, open, middle, close, end] = pieces.as_slice() else {
        anyhow::bail!("not six pieces");
    };
    let count: u32 = count.parse()?;
    let mut bytes = text(alloc, front)?;
    put_times(&mut bytes, count, open)?;
    put(&mut bytes, middle)?;
    put_times(&mut bytes, count, close)?;
    put(&mut bytes, end)?;
    Ok(bytes)
}
