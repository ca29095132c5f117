//! Interfaces behind others that are known to stand together.

ghost use Rattle.std.specs.Prelude.{◌≡◌, ◌++◌, true, None, Some, length, drop, IfOk, IfSome};
ghost use Rattle.ob_env.specs.Faces.{faces_of};
ghost use Rattle.ob_env.specs.Fit.{steps_of};
ghost use Rattle.ob_env.specs.Stale.{first_among};
ghost use Rattle.ob_env_ranks.specs.Marks.{is_below, rows_keep, are_ranked, AreRanks};
ghost use Rattle.ob_env.specs.Building.{uses_answer, objects_answer, Stand};

use crate::fit::check_part;
use crate::stale::check_uses;
use ob_env::Env;
use ob_env_files::SymbolFile;
use ob_env_ranks::{faces_keep, heights_behind};
use ob_tree::List;
use std::alloc::{AllocError, Global};

/// What of these interfaces is behind others that come first; none where others come first, which
/// is told by their bytes.
pub fn faces_behind<'a>(faces: &'a [SymbolFile], before: &[SymbolFile]) -> Option<&'a [SymbolFile]>
    ensures { IfSome result (λ more. faces.now ≡ before.now ++ more.now) }
{
    let mut rest = faces;
    let mut left = before;
    while let [first, others @ ..] = left {
        let [face, more @ ..] = rest else {
            return None;
        };
        if !face.is_same(first) {
            return None;
        }
        rest = more;
        left = others;
    }
    Some(rest)
}

// The heights, and behind them those of what is new.
fn with_heights(
    alloc: Global,
    faces: &Env,
    heights: List<List<u32>>,
    more: &[SymbolFile],
) -> Result<List<List<u32>>, AllocError>
    ensures { IfOk result (λ all. all ≡ heights ++ drop (length heights) all) }
{
    let rows = heights_behind(alloc, faces, &heights, more)?;
    let mut all = heights;
    all.append(rows)?;
    Ok(all)
}

// Whether what is new keeps the heights behind the first ones.
fn rest_keeps(faces: &Env, all: &List<List<u32>>, known: usize, more: &[SymbolFile]) -> bool
    ensures { result ≡ true → rows_keep (is_below faces.now all.now) more.now (drop known all.now) ≡ true }
{
    match all.as_slice().get(known..) {
        None => false,
        Some(rows) => faces_keep(faces, all, more, rows),
    }
}

// Whether each use of what is new is met.
fn uses_stand(faces: &Env, more: &[SymbolFile]) -> bool
    ensures { result ≡ true → first_among (uses_answer faces.now) more.now ≡ None }
{
    match check_uses(faces, more) {
        Ok(()) => true,
        Err(_) => false,
    }
}

// Whether each object of what is new fits, where all have heights.
fn objects_stand(alloc: Global, faces: &Env, all: &List<List<u32>>, more: &[SymbolFile]) -> bool
    requires { are_ranked faces.now all.now ≡ true }
    ensures { result ≡ true → first_among (objects_answer faces.now (steps_of (faces_of faces.now))) more.now ≡ None }
{
    let _ = all;
    let none = List::new(alloc);
    match check_part(alloc, faces, &none, more) {
        Ok(()) => true,
        Err(_) => false,
    }
}

// The heights of the objects of these interfaces, where what is new stands and has heights too.
fn grown_ranks(
    alloc: Global,
    faces: &Env,
    before: &Env,
    heights: List<List<u32>>,
) -> Option<List<List<u32>>>
    requires stand { Stand before.now }
    requires ranked { are_ranked before.now heights ≡ true }
    ensures { IfSome result (λ all. Stand faces.now × (are_ranked faces.now all ≡ true)) }
{
    let more = faces_behind(faces.faces(), before.faces())?;
    let known = heights.len();
    if known != before.faces().len() {
        return None;
    }
    let Ok(all) = with_heights(alloc, faces, heights, more) else {
        return None;
    };
    if !rest_keeps(faces, &all, known, more) {
        return None;
    }
    if !uses_stand(faces, more) {
        return None;
    }
    if !objects_stand(alloc, faces, &all, more) {
        return None;
    }
    Some(all)
}

/// The heights of the objects of these interfaces, where they begin with those that stood before
/// with heights, and what is new stands and has heights too.
pub fn ranks_behind(
    alloc: Global,
    faces: &Env,
    before: &Env,
    ranks: Option<List<List<u32>>>,
) -> Option<List<List<u32>>>
    requires stand { Stand before.now }
    requires ranks { AreRanks before.now ranks }
    ensures { IfSome result (λ all. Stand faces.now × (are_ranked faces.now all ≡ true)) }
{
    match ranks {
        None => None,
        Some(heights) => grown_ranks(alloc, faces, before, heights),
    }
}
