//! Names that are moved between those that are known and those that are put aside.

ghost use Rattle.std.specs.Prelude.{◌≡◌, [], ◌∷◌, ◌++◌, ◌<◌, ◌≤◌, ◌-◌, ◌+◌, true, length, drop, IfOk, OnOk};
ghost use Rattle.ob_rules.specs.Headings.{of_scope};
ghost use Rattle.ob_cdecl_scopes.specs.Descending.{are_within, are_of, inner_first, inner_rest, is_inner};
ghost use Rattle.ob_cdecl_scopes.specs.Bodies.{outer_names};

use crate::table::Table;
use ob_rules::Known;
use std::alloc::{AllocError, Global};

fn is_inner(known: &Table<Known>, scope: u32) -> bool
    ensures { result ≡ is_inner scope known.now }
{
    match known.latest() {
        None => false,
        Some(k) => k.scope == scope,
    }
}

// The latest name, where it is of that scope.
#[tactic(auto, using(crate::proofs::Bodying::no_inner, crate::proofs::Bodying::one_inner))]
fn pop_inner(known: &mut Table<Known>, scope: u32) -> Option<Known>
    ensures first { result ≡ inner_first scope known.old }
    ensures rest { known.new ≡ inner_rest scope known.old }
{
    if !is_inner(&*known, scope) {
        return None;
    }
    known.pop()
}

/// Takes the names of the innermost scope away, the latest first.
pub(crate) fn take_inner(
    alloc: Global,
    known: &mut Table<Known>,
    scope: u32,
) -> Result<Vec<Known>, AllocError>
    requires inner { 0 < scope }
    requires fall { are_within scope known.old ≡ true }
    ensures stays { are_within scope known.new ≡ true }
    ensures taken { IfOk result (λ v. v.items ≡ of_scope (scope - 1) known.old) }
    ensures one_scope { IfOk result (λ v. are_of scope v.items ≡ true) }
    ensures left { OnOk result (known.new ≡ outer_names (scope - 1) known.old) }
    ensures outer { OnOk result (are_within (scope - 1) known.new ≡ true) }
{
    let mut names = Vec::new(alloc);
    'names: while let Some(k) = pop_inner(known, scope) {
        names.push(k)?;
    }
    Ok(names)
}

/// Puts the latest names aside until so many are left.
pub(crate) fn hide(
    known: &mut Table<Known>,
    aside: &mut Vec<Known>,
    names: usize,
    scope: u32,
) -> Result<(), AllocError>
    requires { are_within scope known.old ≡ true }
    ensures stays { are_within scope known.new ≡ true }
    ensures all { OnOk result (aside.new.items ++ known.new ≡ aside.old.items ++ known.old) }
    ensures few { OnOk result (length known.new ≤ names) }
{
    'names: while known.len() > names {
        match known.pop() {
            None => return Ok(()),
            Some(k) => aside.push(k)?,
        }
    }
    Ok(())
}

/// Puts names back, the earliest first, until so many are known.
pub(crate) fn put_back(
    alloc: Global,
    known: &mut Table<Known>,
    aside: &mut Vec<Known>,
    names: usize,
    scope: u32,
) -> Result<(), AllocError>
    requires { are_within scope (aside.old.items ++ known.old) ≡ true }
    ensures stays { are_within scope known.new ≡ true }
    ensures all { OnOk result (aside.new.items ++ known.new ≡ aside.old.items ++ known.old) }
    ensures many { OnOk result (length known.old ≤ names → names ≤ length (aside.old.items ++ known.old) → length known.new ≡ names) }
{
    'names: while known.len() < names {
        match aside.pop() {
            None => return Ok(()),
            Some(k) => known.push(alloc, k)?,
        }
    }
    Ok(())
}

/// All of them are known too, of which the first is the latest.
pub(crate) fn put_all(
    alloc: Global,
    known: &mut Table<Known>,
    names: Vec<Known>,
    scope: u32,
) -> Result<(), AllocError>
    requires { are_within scope (names.items ++ known.old) ≡ true }
    ensures stays { are_within scope known.new ≡ true }
    ensures all { OnOk result (known.new ≡ names.items ++ known.old) }
{
    let mut rest = names;
    'names: while let Some(k) = rest.pop() {
        known.push(alloc, k)?;
    }
    Ok(())
}
