//! Objects counted against the symbol file that stood there.

ghost use Rattle.std.specs.Prelude.{◌≡◌, ◌+◌, ◌<◌, ◌^◌, [], None, IfOk, option_map};
ghost use Rattle.ob_sym.specs.Grammar.{face as face_form};
ghost use Rattle.ob_env.specs.Faces.{face_of};
ghost use Rattle.ob_shell_session.specs.Counting.{is_shape, is_layout, follows, and_one, counts_from, no_counts, counts_between};
ghost use Rattle.ob_cmp.specs.Verdicts.{no_face};
ghost use Rattle.ob_shell_model.specs.Files.{stood, IsOf};
ghost use Rattle.ob_shell_session.specs.Found.{found_as, HasSpelling};

use crate::found::SymbolFile as Earlier;
use ob_cmp::{Kind, Verdict, compare_file};
use ob_env_files::SymbolFile;
use ob_shell_reports::Counts;
use ob_tree::{List, Name};
use ob_types::Interface;
use std::alloc::{AllocError, Global};

fn is_shape(kind: Kind) -> bool
    ensures { result ≡ is_shape kind }
{
    match kind {
        Kind::Added => false,
        Kind::Gone => false,
        Kind::ShapeChanged => true,
        Kind::LayoutChanged => false,
    }
}

fn is_layout(kind: Kind) -> bool
    ensures { result ≡ is_layout kind }
{
    match kind {
        Kind::Added => false,
        Kind::Gone => false,
        Kind::ShapeChanged => false,
        Kind::LayoutChanged => true,
    }
}

// Whether a verdict is the second one on the object of the verdict before it.
fn follows(last: Option<&Verdict>, verdict: &Verdict) -> bool
    ensures { result ≡ follows (option_map (λ v. v.now) last.entry) verdict.now }
{
    match last {
        None => false,
        Some(before) => {
            is_shape(before.kind)
                && is_layout(verdict.kind)
                && before.object.as_bytes() == verdict.object.as_bytes()
        }
    }
}

// Counts one verdict more.
fn and_one(counts: Counts, again: bool, kind: Kind) -> Counts
    requires { counts.added + counts.changed + counts.gone < 2 ^ 63 }
    ensures { result ≡ and_one counts again kind }
{
    match kind {
        Kind::Added => Counts {
            added: counts.added + 1,
            ..counts
        },
        Kind::Gone => Counts {
            gone: counts.gone + 1,
            ..counts
        },
        Kind::ShapeChanged => Counts {
            changed: counts.changed + 1,
            ..counts
        },
        Kind::LayoutChanged => {
            if again {
                counts
            } else {
                Counts {
                    changed: counts.changed + 1,
                    ..counts
                }
            }
        }
    }
}

// Counts verdicts on so many objects.
fn count(objects: usize, verdicts: &[Verdict]) -> Counts
    ensures { result ≡ counts_from (no_counts objects) None verdicts.now }
{
    let mut counts = Counts {
        objects,
        added: 0,
        changed: 0,
        gone: 0,
    };
    let mut last = None;
    let mut rest = verdicts;
    'verdicts: while let [first, more @ ..] = rest {
        counts = and_one(counts, follows(last, first), first.kind);
        last = Some(first);
        rest = more;
    }
    counts
}

// Counts the objects of an interface beside another one.
#[tactic(auto, using(crate::proofs::Counted::counts_are))]
fn count_between(alloc: Global, old: &Interface, new: &SymbolFile) -> Result<Counts, AllocError>
    requires old { face_form.fits old.now }
    requires new { face_form.fits new.now }
    ensures { IfOk result (λ c. c ≡ counts_between (face_of old.now) (face_of new.now)) }
{
    let verdicts = compare_file(alloc, old, new)?;
    Ok(count(new.objects().len(), verdicts.as_slice()))
}

// An interface without objects.
fn no_face(alloc: Global, name: &Name) -> Interface
    ensures { result ≡ record { «module» = name.now; imports = []; objects = []; uses = [] } }
{
    Interface {
        module: *name,
        imports: List::new(alloc),
        objects: List::new(alloc),
        uses: List::new(alloc),
    }
}

// Counts the objects of an interface where none stood there.
#[tactic(auto, using(crate::proofs::Counted::no_face_fits))]
fn count_new(alloc: Global, face: &SymbolFile) -> Result<Counts, AllocError>
    requires { face_form.fits face.now }
    ensures { IfOk result (λ c. c ≡ counts_between (no_face face.now.«module») (face_of face.now)) }
{
    let old = no_face(alloc, face.module());
    let counts = count_between(alloc, &old, face)?;
    Ok(counts)
}

// Counts the objects of an interface beside one that was read, of whatever module.
fn count_beside(alloc: Global, old: &Interface, face: &SymbolFile) -> Result<Counts, AllocError>
    requires old { face_form.fits old.now }
    requires face { face_form.fits face.now }
    ensures { IfOk result (λ c. c ≡ counts_between (stood face.now.«module» (IsOf old.now)) (face_of face.now)) }
{
    if face.module().as_bytes() == old.module.as_bytes() {
        let counts = count_between(alloc, old, face)?;
        return Ok(counts);
    }
    let counts = count_new(alloc, face)?;
    Ok(counts)
}

/// Counts the objects of an interface beside what its symbol file was. An error is want of memory
/// alone.
pub fn count_objects(
    alloc: Global,
    symbols: &Earlier,
    face: &SymbolFile,
) -> Result<Counts, AllocError>
    requires symbols { HasSpelling symbols.now }
    requires face { face_form.fits face.now }
    ensures { IfOk result (λ c. c ≡ counts_between (stood face.now.«module» (found_as symbols.now)) (face_of face.now)) }
{
    match symbols {
        Earlier::Missing => count_new(alloc, face),
        Earlier::Long => count_new(alloc, face),
        Earlier::Damaged => count_new(alloc, face),
        Earlier::Of(old) => count_beside(alloc, old, face),
    }
}
