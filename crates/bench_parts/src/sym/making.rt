//! The bytes of a large symbol file: constants, records with bound procedures, and uses.

use std::alloc::Global;

// The text behind its length.
fn put_text(out: &mut Vec<u8>, text: &str) -> anyhow::Result<()> {
    let length = u32::try_from(text.len())?;
    out.extend_from_slice(&length.to_be_bytes())?;
    out.extend_from_slice(text.as_bytes())?;
    Ok(())
}

// The name behind its length.
fn put_name(out: &mut Vec<u8>, name: &str) -> anyhow::Result<()> {
    let length = u16::try_from(name.len())?;
    out.extend_from_slice(&length.to_be_bytes())?;
    out.extend_from_slice(name.as_bytes())?;
    Ok(())
}

// A constant, a string of 2,000 characters.
fn put_constant(alloc: Global, out: &mut Vec<u8>, number: u32) -> anyhow::Result<()> {
    let name = format!(in alloc; "C{number:06}")?;
    let mut shape = format!(in alloc; "const M.{name} STRING \"")?;
    for i in 0..2000u32 {
        let byte = i % 128;
        let digits = format!(in alloc; "{byte:02X}")?;
        shape.push_str(&digits)?;
    }
    shape.push_str("\"")?;
    put_name(out, &name)?;
    put_text(out, &shape)?;
    out.push(0)?;
    Ok(())
}

// A record of 64 fields and 16 bound procedures, with its layout.
fn put_record(alloc: Global, out: &mut Vec<u8>, number: u32) -> anyhow::Result<()> {
    let name = format!(in alloc; "R{number:06}")?;
    let mut shape = format!(in alloc; "record M.{name} * NONE")?;
    for i in 0..64u32 {
        let field = format!(in alloc; " f field{i:02} * {i} LONGINT")?;
        shape.push_str(&field)?;
    }
    for i in 0..16u32 {
        let method = format!(in alloc; " p Method{i:02} {i} v (=LONGINT,&M.{name})BOOLEAN")?;
        shape.push_str(&method)?;
    }
    let layout = format!(in alloc; "layout M.{name} 64 16")?;
    put_name(out, &name)?;
    put_text(out, &shape)?;
    out.push(1)?;
    put_text(out, &layout)
}

fn put_use(alloc: Global, out: &mut Vec<u8>, number: u32) -> anyhow::Result<()> {
    let name = format!(in alloc; "Object{number:08}")?;
    put_name(out, "Other")?;
    put_name(out, &name)?;
    out.push(0)?;
    out.extend_from_slice(b"\x01\x02\x03\x04\x05\x06\x07\x08")?;
    Ok(())
}

/// A symbol file of so many objects, the first half of them constants and the others records, and
/// of so many uses.
pub fn symbol_file(alloc: Global, objects: u32, uses: u32) -> anyhow::Result<Vec<u8>> {
    let mut out = Vec::new(alloc);
    out.extend_from_slice(b"OSYM\x01")?;
    put_name(&mut out, "M")?;
    out.extend_from_slice(&1u32.to_be_bytes())?;
    put_name(&mut out, "Other")?;
    out.extend_from_slice(&objects.to_be_bytes())?;
    let constants = objects / 2;
    for number in 0..constants {
        put_constant(alloc, &mut out, number)?;
    }
    for number in constants..objects {
        put_record(alloc, &mut out, number)?;
    }
    out.extend_from_slice(&uses.to_be_bytes())?;
    for number in 0..uses {
        put_use(alloc, &mut out, number)?;
    }
    Ok(out)
}
