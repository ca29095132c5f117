//! Types whose chains end within so many rounds, marked round by round.

ghost use Rattle.std.specs.Prelude.{◌≡◌, IfOk, slice_get};
ghost use Rattle.std.specs.List.{list_all};
ghost use Rattle.ob_types.specs.declared.types.TypeRef.TheVariants as ref;
ghost use Rattle.ob_types.specs.Maps.{stands_on};
ghost use Rattle.std.specs.Prelude.{map as each};
ghost use Rattle.ob_env_ranks.specs.Marks.{mark_at, is_marked, row_by, marks_by, are_all, SayWithin, AreRanks, is_basic};

use crate::heights::heights_of;
use crate::ranked::are_ranked;
use crate::tested::{Test, all_stood_on};
use ob_env::Env;
use ob_env_files::SymbolFile;
use ob_layout::item_at;
use ob_tree::{List, QName};
use ob_types::{Object, TypeRef};
use std::alloc::{AllocError, Global};

/// The most types in a chain.
const CHAIN: usize = 201;

// Whether a type is basic.
#[derive(Drop)]
struct BasicTest;

impl Test for BasicTest {
    ghost passes = { λ p t. is_basic t };

    fn test(&self, t: &TypeRef) -> bool {
        matches!(t, TypeRef::Basic(_))
    }
}

fn mark_in(marks: &[bool], at: usize) -> Option<bool>
    ensures { result ≡ slice_get marks.now at }
{
    item_at(marks, at).copied()
}

// The mark at a place.
fn mark_placed(marks: &[List<bool>], face: usize, object: usize) -> Option<bool>
    ensures { result ≡ mark_at marks.now (face, object) }
{
    match item_at(marks, face) {
        None => None,
        Some(row) => mark_in(row.as_slice(), object),
    }
}

/// Whether the type of that name is marked.
pub fn is_name_marked(env: &Env, marks: &[List<bool>], name: &QName) -> bool
    ensures { result ≡ is_marked env.now marks.now (ref.Named name.now) }
{
    match env.place(name) {
        None => true,
        Some((face, object)) => match mark_placed(marks, face, object) {
            None => true,
            Some(mark) => mark,
        },
    }
}

// Whether a type is marked.
#[derive(Drop)]
struct MarkTest<'a> {
    env: &'a Env,
    marks: &'a List<List<bool>>,
}

impl Test for MarkTest<'_> {
    ghost passes = { λ p t. is_marked p.env.now p.marks.now t };

    fn test(&self, t: &TypeRef) -> bool {
        match t {
            TypeRef::Basic(_) => true,
            TypeRef::Named(name) => is_name_marked(self.env, self.marks.as_slice(), name),
        }
    }
}

fn marks_of<P: Test>(alloc: Global, p: &P, objects: &[Object]) -> Result<List<bool>, AllocError>
    ensures { IfOk result (λ row. row ≡ each (λ o. list_all (P.passes p.now) (stands_on o.desc)) objects.now) }
{
    let mut row = List::new(alloc);
    let mut rest = objects;
    while let [first, more @ ..] = rest {
        row.push(all_stood_on(p, &first.desc))?;
        rest = more;
    }
    Ok(row)
}

// The marks of the types of an interface all of whose parts pass.
fn face_marks<P: Test>(alloc: Global, p: &P, face: &SymbolFile) -> Result<List<bool>, AllocError>
    ensures { IfOk result (λ row. row ≡ row_by (P.passes p.now) face.now) }
{
    marks_of(alloc, p, face.objects())
}

fn rows_by<P: Test>(
    alloc: Global,
    p: &P,
    faces: &[SymbolFile],
) -> Result<List<List<bool>>, AllocError>
    ensures { IfOk result (λ rows. rows ≡ marks_by (P.passes p.now) faces.now) }
{
    let mut rows = List::new(alloc);
    let mut rest = faces;
    while let [first, more @ ..] = rest {
        let row = face_marks(alloc, p, first)?;
        rows.push(row)?;
        rest = more;
    }
    Ok(rows)
}

fn row_is_all(row: &[bool]) -> bool
    ensures { result ≡ list_all (λ b. b) row.now }
{
    let mut rest = row;
    while let [first, more @ ..] = rest {
        if !*first {
            return false;
        }
        rest = more;
    }
    true
}

fn rows_are_all(rows: &[List<bool>]) -> bool
    ensures { result ≡ are_all rows.now }
{
    let mut rest = rows;
    while let [first, more @ ..] = rest {
        if !row_is_all(first.as_slice()) {
            return false;
        }
        rest = more;
    }
    true
}

// In rounds, each of which goes one type further; the last round is the one that marks all.
fn round_marks(alloc: Global, env: &Env) -> Result<List<List<bool>>, AllocError>
    ensures { IfOk result (λ marks. SayWithin env.now CHAIN marks) }
{
    let mut marks = rows_by(alloc, &BasicTest, env.faces())?;
    for round in 1..CHAIN {
        let _ = round;
        if rows_are_all(marks.as_slice()) {
            return Ok(marks);
        }
        let next = rows_by(alloc, &MarkTest { env, marks: &marks }, env.faces())?;
        marks = next;
    }
    Ok(marks)
}

/// A height for each object, above the heights of all on which it stands; none where heights that
/// keep this were not found.
pub fn ranks_of(alloc: Global, env: &Env) -> Result<Option<List<List<u32>>>, AllocError>
    ensures { IfOk result (λ ranks. AreRanks env.now ranks) }
{
    let heights = heights_of(alloc, env)?;
    if are_ranked(env, &heights) {
        return Ok(Some(heights));
    }
    Ok(None)
}

/// The marks of the types on which no chain of more than 201 types stands, itself among them.
/// Where all have a height, no chain is too long, and no mark says so; else they are made in rounds.
pub fn within_marks(
    alloc: Global,
    env: &Env,
    ranks: &Option<List<List<u32>>>,
) -> Result<List<List<bool>>, AllocError>
    requires { AreRanks env.now ranks.now }
    ensures { IfOk result (λ marks. SayWithin env.now CHAIN marks) }
{
    match ranks {
        Some(_) => Ok(List::new(alloc)),
        None => round_marks(alloc, env),
    }
}
