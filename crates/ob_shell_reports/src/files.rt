//! What compare and check print, and the refusals of files.

ghost use Rattle.std.specs.Prelude.{◌≡◌, ◌++◌, ◌<◌, true, false, length, codes};
ghost use Rattle.std.specs.List.{flat_map};
ghost use Rattle.ob_io.specs.Io.{HasCause, WritesAll};
ghost use Rattle.ob_cmp.specs.Verdicts.{kind_text, verdict_line, compare_text};
ghost use Rattle.ob_cmp.specs.Check.{aspect_text, how_text, stale_line, stale_text};
ghost use Rattle.ob_shell_reports.specs.Texts.{refused};
ghost use Rattle.ob_shell_reports.specs.Prints.{before, PrintDoes, SinkCause};

use crate::printing::{put_all, tell};
use crate::stop::Stop;
use itoa::Buffer;
use ob_cmp::{Kind, Stale, Verdict};
use ob_io::{Failed, Sink};
use ob_tree::{Name, QName};
use ob_types::Aspect;

/// Prints why a name is refused: three texts, of which the last one ends the line.
pub fn refuse<O: Sink>(
    name: &[u8],
    first: &[u8],
    second: &[u8],
    third: &[u8],
    out: &mut O,
) -> Result<bool, Stop>
    ensures does { PrintDoes (O.tells out.old) (O.taken out.old) (O.taken out.new) (refused name.now (first.now ++ (second.now ++ third.now))) true result }
    ensures told { O.tells out.new ≡ O.tells out.old }
    ensures cause { SinkCause (O.faults out.old) (O.faults out.new) result }
{
    let texts = [b"refused ", name, b": ", first, second, third];
    tell(&texts, true, out)
}

// COMPARE

fn kind_text(kind: Kind) -> &'static [u8]
    ensures { result.now ≡ kind_text kind }
{
    match kind {
        Kind::Added => b"added",
        Kind::Gone => b"gone",
        Kind::ShapeChanged => b"shape changed",
        Kind::LayoutChanged => b"layout changed",
    }
}

// Prints a line of two words.
fn put_words<S: Sink>(out: &mut S, first: &[u8], second: &[u8]) -> Result<(), Failed>
    ensures told { S.tells out.new ≡ S.tells out.old }
    ensures bytes { S.tells out.old ≡ true → WritesAll (S.taken out.old) (S.taken out.new) result (first.now ++ (codes " " ++ (second.now ++ codes "\n"))) }
    ensures cause { HasCause (S.faults out.old) (S.faults out.new) result }
{
    let texts = [first, b" ", second, b"\n"];
    put_all(out, &texts)
}

fn put_verdict<S: Sink>(out: &mut S, verdict: &Verdict) -> Result<(), Failed>
    ensures told { S.tells out.new ≡ S.tells out.old }
    ensures bytes { S.tells out.old ≡ true → WritesAll (S.taken out.old) (S.taken out.new) result (verdict_line verdict.now) }
    ensures cause { HasCause (S.faults out.old) (S.faults out.new) result }
{
    put_words(out, verdict.object.as_bytes(), kind_text(verdict.kind))
}

// Prints a line for each verdict.
#[tactic(auto, using(crate::proofs::Along::along_more, crate::proofs::Along::along_cut, crate::proofs::Along::along_done))]
fn put_verdicts<S: Sink>(out: &mut S, verdicts: &[Verdict]) -> Result<(), Failed>
    ensures told { S.tells out.new ≡ S.tells out.old }
    ensures bytes { S.tells out.old ≡ true → WritesAll (S.taken out.old) (S.taken out.new) result (flat_map verdict_line verdicts.now) }
    ensures cause { HasCause (S.faults out.old) (S.faults out.new) result }
{
    let mut rest = verdicts;
    'verdicts: while let [first, more @ ..] = rest {
        put_verdict(out, first)?;
        rest = more;
    }
    Ok(())
}

// Prints texts, and a line for each verdict.
#[tactic(auto, using(crate::proofs::Befores::then_before, crate::proofs::Befores::cut_before))]
fn put_with_verdicts<S: Sink>(
    out: &mut S,
    texts: &[&[u8]],
    verdicts: &[Verdict],
) -> Result<(), Failed>
    ensures told { S.tells out.new ≡ S.tells out.old }
    ensures bytes { S.tells out.old ≡ true → WritesAll (S.taken out.old) (S.taken out.new) result (before texts.now (flat_map verdict_line verdicts.now)) }
    ensures cause { HasCause (S.faults out.old) (S.faults out.new) result }
{
    put_all(out, texts)?;
    put_verdicts(out, verdicts)
}

/// Prints how the objects of two symbol files differ. It takes no memory.
pub fn put_compare<O: Sink>(
    old: &str,
    new: &str,
    verdicts: &[Verdict],
    out: &mut O,
) -> Result<bool, Stop>
    ensures does { PrintDoes (O.tells out.old) (O.taken out.old) (O.taken out.new) (compare_text old.now new.now verdicts.now) false result }
    ensures told { O.tells out.new ≡ O.tells out.old }
    ensures cause { SinkCause (O.faults out.old) (O.faults out.new) result }
{
    let mut count = Buffer::new();
    let texts = [
        b"compare ",
        old.as_bytes(),
        b" ",
        new.as_bytes(),
        b": ",
        count.format(verdicts.len()).as_bytes(),
        b" verdicts\n",
    ];
    match put_with_verdicts(out, &texts, verdicts) {
        Ok(()) => Ok(false),
        Err(_) => Err(Stop::Sink),
    }
}

// CHECK

fn aspect_text(aspect: Aspect) -> &'static [u8]
    ensures { result.now ≡ aspect_text aspect }
{
    match aspect {
        Aspect::Shape => b"shape",
        Aspect::Layout => b"layout",
    }
}

fn how_text(absent: bool) -> &'static [u8]
    ensures { result.now ≡ how_text absent }
{
    if absent { b"absent" } else { b"changed" }
}

// Prints a line of an object and two words.
fn put_object<S: Sink>(
    out: &mut S,
    object: &QName,
    first: &[u8],
    second: &[u8],
) -> Result<(), Failed>
    ensures told { S.tells out.new ≡ S.tells out.old }
    ensures bytes { S.tells out.old ≡ true → WritesAll (S.taken out.old) (S.taken out.new) result (object.now.«module» ++ (codes "." ++ (object.now.object ++ (codes " " ++ (first.now ++ (codes " " ++ (second.now ++ codes "\n"))))))) }
    ensures cause { HasCause (S.faults out.old) (S.faults out.new) result }
{
    let texts = [
        object.module.as_bytes(),
        b".",
        object.object.as_bytes(),
        b" ",
        first,
        b" ",
        second,
        b"\n",
    ];
    put_all(out, &texts)
}

fn put_use<S: Sink>(out: &mut S, stale: &Stale) -> Result<(), Failed>
    ensures told { S.tells out.new ≡ S.tells out.old }
    ensures bytes { S.tells out.old ≡ true → WritesAll (S.taken out.old) (S.taken out.new) result (stale_line stale.now) }
    ensures cause { HasCause (S.faults out.old) (S.faults out.new) result }
{
    put_object(
        out,
        &stale.object,
        aspect_text(stale.aspect),
        how_text(stale.absent),
    )
}

// Prints a line for each use.
#[tactic(auto, using(crate::proofs::Along::along_more, crate::proofs::Along::along_cut, crate::proofs::Along::along_done))]
fn put_uses<S: Sink>(out: &mut S, uses: &[Stale]) -> Result<(), Failed>
    ensures told { S.tells out.new ≡ S.tells out.old }
    ensures bytes { S.tells out.old ≡ true → WritesAll (S.taken out.old) (S.taken out.new) result (flat_map stale_line uses.now) }
    ensures cause { HasCause (S.faults out.old) (S.faults out.new) result }
{
    let mut rest = uses;
    'uses: while let [first, more @ ..] = rest {
        match put_use(out, first) {
            Ok(()) => rest = more,
            Err(fault) => return Err(fault),
        }
    }
    Ok(())
}

// Prints texts, and a line for each use.
#[tactic(auto, using(crate::proofs::Befores::then_before, crate::proofs::Befores::cut_before))]
fn put_with_uses<S: Sink>(out: &mut S, texts: &[&[u8]], uses: &[Stale]) -> Result<(), Failed>
    ensures told { S.tells out.new ≡ S.tells out.old }
    ensures bytes { S.tells out.old ≡ true → WritesAll (S.taken out.old) (S.taken out.new) result (before texts.now (flat_map stale_line uses.now)) }
    ensures cause { HasCause (S.faults out.old) (S.faults out.new) result }
{
    put_all(out, texts)?;
    put_uses(out, uses)
}

// Prints uses that are stale.
fn put_some<O: Sink>(name: &[u8], uses: &[Stale], out: &mut O) -> Result<bool, Stop>
    requires { 0 < length uses.now }
    ensures does { PrintDoes (O.tells out.old) (O.taken out.old) (O.taken out.new) (stale_text name.now uses.now) false result }
    ensures told { O.tells out.new ≡ O.tells out.old }
    ensures cause { SinkCause (O.faults out.old) (O.faults out.new) result }
{
    let mut count = Buffer::new();
    let texts = [
        b"check ",
        name,
        b": ",
        count.format(uses.len()).as_bytes(),
        b" stale\n",
    ];
    match put_with_uses(out, &texts, uses) {
        Ok(()) => Ok(false),
        Err(_) => Err(Stop::Sink),
    }
}

/// Prints the uses of a module that are stale, or that it is up to date. It takes no memory.
pub fn put_stale<O: Sink>(name: &Name, uses: &[Stale], out: &mut O) -> Result<bool, Stop>
    ensures does { PrintDoes (O.tells out.old) (O.taken out.old) (O.taken out.new) (stale_text name.now uses.now) false result }
    ensures told { O.tells out.new ≡ O.tells out.old }
    ensures cause { SinkCause (O.faults out.old) (O.faults out.new) result }
{
    if uses.is_empty() {
        return tell(&[b"check ", name.as_bytes(), b": up to date\n"], false, out);
    }
    put_some(name.as_bytes(), uses, out)
}
