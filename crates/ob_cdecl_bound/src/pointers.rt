//! The pointers whose base was left for later, each behind the pointer that its base is.

#![tactic(auto, using(ob_rules::proofs::BookLaws::after_none, ob_rules::proofs::BookLaws::after_joined))]

ghost use Rattle.std.specs.Prelude.{◌≡◌, suc, length, bytes_eq, OnOk};
ghost use Rattle.std.specs.List.{find};
ghost use Rattle.std.specs.Option.{option_copied};
ghost use Rattle.ob_cdecl_scopes.specs.Scopes.{around_of};
ghost use Rattle.ob_rules.specs.declared.notes.Notebook.{Notebook as ABook};
ghost use Rattle.ob_rules.specs.Books.{book_after};
ghost use Rattle.ob_rules.specs.Judged.{Notes};
ghost use Rattle.ob_rules.specs.Names.{is_among};
ghost use Rattle.ob_rules.specs.Declarations as spec;
ghost use Rattle.ob_cdecl_bound.specs.Told.{at_notes, Told, left_pointers, base_judged};

use ob_cdecl_scopes::{Imports, Scope, Stack};
use ob_cexpr_name::{is_array, is_held, is_record};
use ob_rules::{Later, Notebook, Rule, Surroundings};
use ob_types::{TypeRef, Types, target_within};
use std::alloc::{AllocError, Global};

/// The pointers that were judged or are being judged, those of them that break the rule, those
/// whose bases were gone through, and where a ring begins that is gone through.
#[derive(Drop)]
pub(crate) struct Progress {
    pub(crate) judged: Stack,
    pub(crate) unsound: Stack,
    pub(crate) through: Stack,
    pub(crate) rings: Stack,
}

fn pointer_name(left: &Later) -> &[u8]
    ensures { result.now ≡ spec.pointer_name left.now }
{
    match left {
        Later::PointsTo {
            pointer,
            at: _,
            base: _,
            inline: _,
        } => pointer.as_bytes(),
        Later::Inherits { field: _, base: _ } => b"".as_slice(),
    }
}

// The name of a type of this module; none of another module's.
fn own_name<'a, E: Imports>(scope: &Scope<'_, E>, t: &'a TypeRef) -> &'a [u8]
    ensures { result.now ≡ spec.own_name (around_of E.types scope.now) t.now }
{
    match t {
        TypeRef::Basic(_) => b"".as_slice(),
        TypeRef::Named(name) => {
            if name.module.as_bytes() == scope.unit().as_bytes() {
                name.object.as_bytes()
            } else {
                b"".as_slice()
            }
        }
    }
}

// The name of what the base stands for.
fn base_name<'a, E: Imports>(scope: &'a Scope<'_, E>, left: &'a Later) -> &'a [u8]
    ensures { result.now ≡ spec.base_name (around_of E.types scope.now) left.now }
{
    match left {
        Later::PointsTo {
            pointer: _,
            at: _,
            base,
            inline: _,
        } => own_name(scope, target_within(scope, base)),
        Later::Inherits { field: _, base: _ } => b"".as_slice(),
    }
}

fn is_inline(left: &Later) -> bool
    ensures { result ≡ spec.is_inline left.now }
{
    match left {
        Later::PointsTo {
            pointer: _,
            at: _,
            base: _,
            inline,
        } => *inline,
        Later::Inherits { field: _, base: _ } => false,
    }
}

fn is_wrong<T: Types>(types: &T, left: &Later) -> bool
    ensures { result ≡ spec.is_wrong (T.types types.now) left.now }
{
    match left {
        Later::PointsTo {
            pointer: _,
            at: _,
            base,
            inline,
        } => {
            *inline
                || (is_held(types, base)
                    && is_held(types, target_within(types, base))
                    && !(is_array(types, base) || is_record(types, base)))
        }
        Later::Inherits { field: _, base: _ } => false,
    }
}

// Rule 15.
fn note_wrong(book: &mut Notebook, wrong: bool, left: &Later)
    ensures { book.new ≡ book_after book.old (spec.notes_of_wrong wrong left.now) }
{
    if wrong {
        match left {
            Later::PointsTo {
                pointer: _,
                at,
                base: _,
                inline: _,
            } => book.breaks(Rule::UnfitPointerBase, *at),
            Later::Inherits { field: _, base: _ } => {}
        }
    }
}

fn add_if(alloc: Global, names: &mut Stack, adds: bool, name: &[u8]) -> Result<(), AllocError>
    ensures { OnOk result (names.new ≡ spec.add_if adds name.now names.old) }
{
    if adds {
        names.push(alloc, name)?;
    }
    Ok(())
}

// The ring ends with the pointer where it begins.
fn leave_ring(rings: &mut Stack, name: &[u8])
    ensures { rings.new ≡ spec.ring_left (is_among name.now rings.old) rings.old }
{
    if rings.has(name) {
        rings.pop();
    }
}

fn tell(
    alloc: Global,
    book: &mut Notebook,
    progress: &mut Progress,
    left: &Later,
    base: &[u8],
    told: bool,
    unsound: bool,
    back: bool,
) -> Result<(), AllocError>
    ensures { (b : ABook) (t : Notes) → book.old ≡ book_after b t → OnOk result (Told b (spec.pointer_told left.now base.now told unsound back (at_notes progress.old t)) progress.new book.new) }
{
    let name = pointer_name(left);
    add_if(
        alloc,
        &mut progress.unsound,
        told || (unsound && is_inline(left)),
        name,
    )?;
    progress.through.push(alloc, name)?;
    add_if(alloc, &mut progress.rings, told && back, base)?;
    leave_ring(&mut progress.rings, name);
    note_wrong(book, told, left);
    Ok(())
}

// Whether the base is being judged.
fn comes_back(progress: &Progress, base: &[u8]) -> bool
    ensures { (t : Notes) → result ≡ spec.comes_back base.now (at_notes progress.now t) }
{
    progress.judged.has(base) && !progress.through.has(base)
}

fn is_told(progress: &Progress, wrong: bool, unsound: bool, back: bool) -> bool
    ensures { (t : Notes) → result ≡ spec.is_told wrong unsound back (at_notes progress.now t) }
{
    wrong && !unsound && (back || progress.rings.len() == 0)
}

fn judge_one<E: Imports>(
    alloc: Global,
    scope: &Scope<'_, E>,
    book: &mut Notebook,
    progress: &mut Progress,
    left: &Later,
) -> Result<(), AllocError>
    ensures { (b : ABook) (t : Notes) → book.old ≡ book_after b t → OnOk result (Told b (spec.pointer_judged (around_of E.types scope.now) left.now (at_notes progress.old t)) progress.new book.new) }
{
    let base = base_name(scope, left);
    let unsound = progress.unsound.has(base);
    let back = comes_back(progress, base);
    let told = is_told(progress, is_wrong(scope, left), unsound, back);
    tell(alloc, book, progress, left, base, told, unsound, back)?;
    Ok(())
}

fn is_pointer(left: &Later) -> bool
    ensures { result ≡ spec.is_pointer_left left.now }
{
    match left {
        Later::PointsTo {
            pointer: _,
            at: _,
            base: _,
            inline: _,
        } => true,
        Later::Inherits { field: _, base: _ } => false,
    }
}

fn find_pointer<'a>(all: &'a [Later], name: &[u8]) -> Option<&'a Later>
    ensures { option_copied result ≡ find (λ k. bytes_eq (spec.pointer_name k) name.now) (left_pointers all.now) }
{
    'all: for left in all {
        if is_pointer(left) && pointer_name(left) == name {
            return Some(left);
        }
    }
    None
}

#[cycle(pointers)]
fn judge_pointer<E: Imports>(
    alloc: Global,
    scope: &Scope<'_, E>,
    book: &mut Notebook,
    progress: &mut Progress,
    all: &[Later],
    fuel: usize,
    left: &Later,
) -> Result<(), AllocError>
    ensures { (b : ABook) (t : Notes) → book.old ≡ book_after b t → OnOk result (Told b (spec.judge_pointer (around_of E.types scope.now) (left_pointers all.now) fuel left.now (at_notes progress.old t)) progress.new book.new) }
{
    if fuel == 0 {
        return Ok(());
    }
    if progress.judged.has(pointer_name(left)) {
        return Ok(());
    }
    progress.judged.push(alloc, pointer_name(left))?;
    judge_base(alloc, scope, book, progress, all, fuel - 1, left)?;
    judge_one(alloc, scope, book, progress, left)?;
    Ok(())
}

#[cycle(pointers)]
fn judge_base<E: Imports>(
    alloc: Global,
    scope: &Scope<'_, E>,
    book: &mut Notebook,
    progress: &mut Progress,
    all: &[Later],
    fuel: usize,
    left: &Later,
) -> Result<(), AllocError>
    ensures { (b : ABook) (t : Notes) → book.old ≡ book_after b t → OnOk result (Told b (base_judged (around_of E.types scope.now) (left_pointers all.now) fuel left.now (at_notes progress.old t)) progress.new book.new) }
{
    match find_pointer(&*all, base_name(&*scope, &*left)) {
        None => Ok(()),
        Some(base) => {
            judge_pointer(alloc, &*scope, book, progress, &*all, fuel, base)?;
            Ok(())
        }
    }
}

// How many steps from one pointer to the next there may be.
fn fuel_for(all: &[Later]) -> usize
    ensures { result ≡ suc (length (left_pointers all.now)) }
{
    let mut fuel = 1;
    'all: for left in all {
        if is_pointer(left) {
            fuel += 1;
        }
    }
    fuel
}

/// Rule 15 of the pointers whose base was left for later.
pub fn pointers_judged<E: Imports>(
    alloc: Global,
    scope: &Scope<'_, E>,
    book: &mut Notebook,
    all: &[Later],
) -> Result<(), AllocError>
    ensures { OnOk result (book.new ≡ book_after book.old (spec.pointers_judged (around_of E.types scope.now) all.now)) }
{
    let mut progress = Progress {
        judged: Stack::new(alloc),
        unsound: Stack::new(alloc),
        through: Stack::new(alloc),
        rings: Stack::new(alloc),
    };
    let fuel = fuel_for(all);
    'all: for left in all {
        if is_pointer(left) {
            judge_pointer(alloc, scope, book, &mut progress, all, fuel, left)?;
        }
    }
    Ok(())
}
