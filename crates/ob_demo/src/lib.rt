//! The sources of a demo: so many modules, each of which imports the one before it.
#![tactic(auto)]

ghost use Rattle.std.specs.Prelude.{◌≡◌, ◌+◌, ◌≤◌, ◌<◌, ◌++◌, ◌^◌, OnOk, IfOk, decimal, codes, suc};
ghost use Rattle.ob_format.specs.Format.{Adds};
ghost use Rattle.ob_demo.specs.Source.{around, heading, sum, end, procedure, procedures, source, first_front, first_body, next_front, next_body, middle, ending};

use itoa::Buffer;
use ob_format::put_bytes;
use ob_tree::Text;
use std::alloc::{AllocError, Global};

// A number between two texts.
#[tactic(auto, using(ob_format::specs::Exact::then_adds), unfolding(crate::specs::Source::around))]
fn put_around(out: &mut Vec<u8>, front: &[u8], number: u32, back: &[u8]) -> Result<(), AllocError>
    ensures { OnOk result (Adds out.old.items out.new.items (around front.now number back.now)) }
{
    let mut buffer = Buffer::new();
    put_bytes(out, front)?;
    put_bytes(out, buffer.format(number).as_bytes())?;
    put_bytes(out, back)
}

#[tactic(auto, unfolding(crate::specs::Source::heading))]
fn put_heading(out: &mut Vec<u8>, number: u32) -> Result<(), AllocError>
    ensures { OnOk result (Adds out.old.items out.new.items (heading number)) }
{
    put_around(out, b"PROCEDURE Q", number, b"*(x: LONGINT): LONGINT;")
}

#[tactic(auto, unfolding(crate::specs::Source::sum))]
fn put_sum(out: &mut Vec<u8>, number: u32) -> Result<(), AllocError>
    ensures { OnOk result (Adds out.old.items out.new.items (sum number)) }
{
    put_around(out, b" BEGIN RETURN x + ", number, b" END Q")
}

#[tactic(auto, using(ob_format::specs::Exact::then_adds), unfolding(crate::specs::Source::end))]
fn put_end(out: &mut Vec<u8>, number: u32) -> Result<(), AllocError>
    ensures { OnOk result (Adds out.old.items out.new.items (end number)) }
{
    let mut buffer = Buffer::new();
    put_bytes(out, buffer.format(number).as_bytes())?;
    put_bytes(out, b";\n")
}

#[tactic(auto, using(ob_format::specs::Exact::then_adds), unfolding(crate::specs::Source::procedure))]
fn put_procedure(out: &mut Vec<u8>, number: u32) -> Result<(), AllocError>
    ensures { OnOk result (Adds out.old.items out.new.items (procedure number)) }
{
    put_heading(out, number)?;
    put_sum(out, number)?;
    put_end(out, number)
}

// So many procedures, from that number on.
#[tactic(auto, using(ob_format::specs::Exact::then_adds, crate::proofs::More::one_more), unfolding(crate::specs::Source::procedures))]
fn put_procedures(out: &mut Vec<u8>, from: u32, count: u32) -> Result<(), AllocError>
    requires { from + count < 2 ^ 32 }
    ensures { OnOk result (Adds out.old.items out.new.items (procedures from count)) }
{
    if count == 0 {
        return Ok(());
    }
    put_procedure(out, from)?;
    put_procedures(out, from + 1, count - 1)?;
    Ok(())
}

#[tactic(auto, using(ob_format::specs::Exact::then_adds), unfolding(crate::specs::Source::next_front))]
fn put_next_front(out: &mut Vec<u8>, at: u32, before: u32) -> Result<(), AllocError>
    ensures { OnOk result (Adds out.old.items out.new.items (next_front at before)) }
{
    put_around(out, b"MODULE D", at, b";")?;
    put_around(out, b" IMPORT D", before, b", Out;\n")?;
    put_around(out, b"TYPE R* = RECORD (D", before, b".R)")?;
    put_around(
        out,
        b" w",
        at,
        b"*: LONGINT END; T* = POINTER TO R;\nVAR p*: T;\nPROCEDURE (t: T) Sum*(): LONGINT; BEGIN RETURN t.Sum^()",
    )?;
    put_around(out, b" + t.w", at, b" END Sum;\n")
}

#[tactic(auto, using(ob_format::specs::Exact::then_adds), unfolding(crate::specs::Source::next_body))]
fn put_next_body(out: &mut Vec<u8>, at: u32, before: u32) -> Result<(), AllocError>
    ensures { OnOk result (Adds out.old.items out.new.items (next_body at before)) }
{
    put_around(out, b"p.v := D", before, b".p.Sum();")?;
    put_around(out, b" p.w", at, b" :=")?;
    put_around(out, b" ", at, b"")
}

#[tactic(auto, using(ob_format::specs::Exact::then_adds), unfolding(crate::specs::Source::middle))]
fn put_middle(out: &mut Vec<u8>, count: u32) -> Result<(), AllocError>
    requires { count ≤ 60 }
    ensures { OnOk result (Adds out.old.items out.new.items (middle count)) }
{
    put_procedures(out, 1, count)?;
    put_bytes(
        out,
        b"PROCEDURE Go*; BEGIN Out.Int(p.Sum(), 0); Out.Ln END Go;\nBEGIN NEW(p); ",
    )
}

#[tactic(auto, using(ob_format::specs::Exact::then_adds), unfolding(crate::specs::Source::ending))]
fn put_ending(out: &mut Vec<u8>, at: u32) -> Result<(), AllocError>
    ensures { OnOk result (Adds out.old.items out.new.items (ending at)) }
{
    put_around(out, b"\nEND D", at, b".\n")
}

#[tactic(auto, using(ob_format::specs::Exact::then_adds), unfolding(crate::specs::Source::source, crate::specs::Source::first_front, crate::specs::Source::first_body))]
fn put_first(out: &mut Vec<u8>, count: u32) -> Result<(), AllocError>
    requires { count ≤ 60 }
    ensures { OnOk result (Adds out.old.items out.new.items (source count 1)) }
{
    put_bytes(
        out,
        b"MODULE D1; IMPORT Out;\nTYPE R* = RECORD v*: LONGINT END; T* = POINTER TO R;\nVAR p*: T;\nPROCEDURE (t: T) Sum*(): LONGINT; BEGIN RETURN t.v END Sum;\n",
    )?;
    put_middle(out, count)?;
    put_bytes(out, b"p.v := 1")?;
    put_ending(out, 1)
}

#[tactic(auto, using(ob_format::specs::Exact::then_adds), unfolding(crate::specs::Source::source))]
fn put_next(out: &mut Vec<u8>, count: u32, before: u32) -> Result<(), AllocError>
    requires first { 1 ≤ before }
    requires last { before < count }
    requires few { count ≤ 60 }
    ensures { OnOk result (Adds out.old.items out.new.items (source count (suc before))) }
{
    put_next_front(out, before + 1, before)?;
    put_middle(out, count)?;
    put_next_body(out, before + 1, before)?;
    put_ending(out, before + 1)
}

/// The source of module `at` of `count` modules, from 1 to 60.
///
/// Each module but the first imports the one before it and extends its record type; each has
/// `count` procedures and a command `Go`, and the last module's prints the sum of 1 to `count`.
/// An error is want of memory alone.
pub fn source(alloc: Global, count: u32, at: u32) -> Result<Text, AllocError>
    requires first { 1 ≤ at }
    requires last { at ≤ count }
    requires few { count ≤ 60 }
    ensures { IfOk result (λ text. text ≡ source count at) }
{
    let mut out = Vec::new(alloc);
    if at == 1 {
        put_first(&mut out, count)?;
    } else {
        put_next(&mut out, count, at - 1)?;
    }
    Text::from_slice(alloc, &out)
}
